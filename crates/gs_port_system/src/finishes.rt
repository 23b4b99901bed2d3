ghost use Rattle.std.specs.Prelude.{◌≡◌, ◌++◌, List, [], ◌∷◌};
ghost use Rattle.std.specs.Coded.{coded_list};
ghost use Rattle.gs_port.specs.Asides.{Finished};
ghost use Rattle.gs_port_system.specs.Finishes.{coded_finished, finished_with};

use gs_history::History;
use std::marker::{Model, PhantomData};

/// Connections that were finished, in order. Only contracts see them.
pub struct Finishes {
    marker: PhantomData<()>,
    pub ghost given: { List Finished } by { coded_list coded_finished },
}

impl Model for Finishes {
    ghost use base.Fml.{ftrue};

    ghost also_owns = { λ _. ftrue };
}

impl Drop for Finishes {
    fn drop(self) {
        let Finishes { marker: _ } = self;
    }
}

impl Finishes {
    /// Returns no connections.
    pub fn new() -> Finishes
        ensures { result.given ≡ [] }
    {
        Finishes {
            marker: PhantomData,
        }
    }

    /// Adds a connection at the end, with the bytes read and written, and by how much its counts rose.
    pub fn add(&mut self, read: &History, written: &History, reads: u64, writes: u64)
        ensures { self.new.given
            ≡ self.old.given ++ finished_with read.now.given written.now.given reads writes ∷ [] }
    {}
}
