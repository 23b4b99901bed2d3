ghost use Rattle.std.specs.Prelude.{◌≡◌, IfOk, map};
ghost use Rattle.gs_tables.specs.PlacesSupport.{row_place, places_of, serial_place};

use gs_ai::AiTable;
use gs_chars::{List, Memory};
use gs_tables_document::{Kind, SerialAt};
use std::alloc::Global;

/// The places of the rows of a kind among the application identifiers. A row that does not exist has the place after the last
/// row.
#[derive(Clone, Copy)]
pub struct KindPlaces {
    /// The place of the row of its key.
    pub key: usize,
    /// The place of the row of its serial, if that is a separate element.
    pub serial: usize,
}

/// Returns the place of the row of a code.
fn row_place(ais: &AiTable, code: &[u8]) -> usize
    ensures { result ≡ row_place ais.now code.now }
{
    match ais.find(code) {
        Some(place) => place,
        None => ais.rows().len(),
    }
}

/// Returns the place of the row of a serial.
fn serial_place(ais: &AiTable, at: &SerialAt) -> usize
    ensures { result ≡ serial_place ais.now at.now }
{
    match at {
        SerialAt::Ai(code) => row_place(ais, code.as_bytes()),
        SerialAt::Nowhere | SerialAt::Tail => ais.rows().len(),
    }
}

/// Returns the places of the rows of each kind.
pub fn places_of(alloc: Global, ais: &AiTable, kinds: &[Kind]) -> Result<List<KindPlaces>, Memory>
    ensures { IfOk result (λ places. places ≡ map (places_of ais.now) kinds.now) }
{
    let mut places = Vec::new(alloc);
    for kind in kinds {
        places.push(KindPlaces {
            key: row_place(ais, kind.key.as_bytes()),
            serial: serial_place(ais, &kind.serial),
        })?;
    }
    Ok(List::from_vec(places))
}
