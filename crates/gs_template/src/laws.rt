ghost use Rattle.std.specs.Prelude.{◌≡◌, ◌<◌, ◌↔◌, [], ℕ, All, List, false, filter, true};
ghost use Rattle.std.specs.List.{list_all, list_any};
ghost use Rattle.gs_ai.specs.declared.row.AiRow.{AiRow};
ghost use Rattle.gs_ident.specs.Elements.{Elements};
ghost use Rattle.gs_ident.specs.Links.{percent_encoded};
ghost use Rattle.gs_template.specs.Errors.{is_brace, place_errors};
ghost use Rattle.gs_template.specs.Templates.{AreParts, HoldsBytes, Part, filled, is_delimiter, is_place_byte, parts};

/// States that the expansion of a place has only letters, digits, `-`, `.`, `_` and `%`.
pub fn places_hold_plain_bytes()
    ensures { (value : List ℕ) → All (λ c. c < 256) value
        → list_all is_place_byte (percent_encoded value) ≡ true }
{}

/// States that the delimiters of a filled template are those of the template, in their order. No value adds a path segment, a
/// query parameter, a space or a line.
pub fn values_add_no_delimiter()
    ensures { (href : List ℕ) (identity : Elements) → HoldsBytes identity
        → filter is_delimiter (filled href identity) ≡ filter is_delimiter href }
{}

/// States that a template is cut into parts in one way. Spelled one after another the parts are the template, and no place was
/// missed.
pub fn parts_of_a_template()
    ensures { (href : List ℕ) (found : List Part) → (found ≡ parts href) ↔ AreParts found href }
{}

/// States that a filled template has no brace if `places_ok` allows the template, whatever the key and the identity.
pub fn no_brace_is_left()
    ensures { (table : List AiRow) (key href : List ℕ) (identity : Elements) → HoldsBytes identity
        → place_errors table key href ≡ [] → list_any is_brace (filled href identity) ≡ false }
{}
