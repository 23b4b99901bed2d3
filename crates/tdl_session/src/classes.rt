ghost use Rattle.std.specs.Prelude.{◌≡◌, IfOk, IfErr, Ok};
ghost use Rattle.gs_class.specs.Sets.{IsOfTable};
ghost use Rattle.tdl_session.specs.Classes.{AreClassesRejected, ClassesGive};

use crate::opening::Unopened;
use gs_ai::AiTable;
use gs_class::{ClassLoadFault, ClassSet};
use std::alloc::Global;

/// Returns the classes of a document, or the built-in ones if it is empty.
fn classes_of(alloc: Global, ais: &AiTable, bytes: &[u8]) -> Result<ClassSet, ClassLoadFault>
    ensures answer { ClassesGive ais.now bytes.now result }
    ensures of_table { IfOk result (IsOfTable ais.now) }
{
    if bytes.is_empty() {
        ClassSet::builtin(alloc, ais)
    } else {
        ClassSet::load(alloc, ais, bytes)
    }
}

/// Returns the classes, or why they are rejected.
pub(crate) fn load_classes(alloc: Global, ais: &AiTable, bytes: &[u8]) -> Result<ClassSet, Unopened>
    ensures ok { IfOk result (λ set. ClassesGive ais.now bytes.now (Ok set)) }
    ensures of_table { IfOk result (IsOfTable ais.now) }
    ensures rejected { IfErr result (AreClassesRejected ais.now bytes.now) }
{
    match classes_of(alloc, ais, bytes) {
        Ok(set) => Ok(set),
        Err(ClassLoadFault::Memory) => Err(Unopened::Memory),
        Err(error) => Err(Unopened::Classes(error)),
    }
}
