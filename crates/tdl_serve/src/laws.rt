ghost use Rattle.std.specs.Prelude.{ℕ, ◌<◌, List};
ghost use Rattle.gs_port.specs.Counts.{last_count};
ghost use Rattle.gs_http.specs.Sites.{SiteData};
ghost use Rattle.tdl_serve.specs.Visits.{AreVisits, RisesTellErrors, Visit};

/// States that the entries of a listener show which connections ended by an error, if no count of the listener reached its last
/// value. They are those whose counts rose.
pub fn rises_tell_errors()
    ensures { (site : SiteData) (reads writes reads' writes' : ℕ) (visits : List Visit)
        → AreVisits site reads writes visits reads' writes'
        → reads' < last_count → writes' < last_count
        → RisesTellErrors visits }
{}
