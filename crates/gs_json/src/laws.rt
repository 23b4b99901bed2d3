ghost use Rattle.std.specs.Prelude.{◌≡◌, [], Some};
ghost use Rattle.serde_json.specs.Data.{Data};
ghost use Rattle.serde_json.specs.Find.{pointer};
ghost use Rattle.gs_json.specs.Places.{LeadsToItems, LeadsToMembers};

/// States that each part's place is the JSON Pointer (RFC 6901) that leads to it from the whole document. It is empty for the
/// document, a member's for the member, and an item's for the item.
pub fn places_point_to_their_parts()
    ensures whole { (d : Data) → pointer [] d ≡ Some d }
    ensures member { LeadsToMembers }
    ensures item { LeadsToItems }
{}
