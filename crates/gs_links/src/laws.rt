ghost use Rattle.std.specs.Prelude.{◌≡◌, ◌≤◌, ◌↔◌, ℕ, List, Ok, Some, length, slice_get, true};
ghost use Rattle.std.specs.List.{list_all};
ghost use Rattle.gs_ai.specs.declared.row.AiRow.{AiRow};
ghost use Rattle.gs_ident.specs.Elements.{Elements, first_qualifiers};
ghost use Rattle.gs_linkset.specs.LinkShapes.{links_of_document};
ghost use Rattle.gs_linkset.specs.declared.link_types.Context.{Context};
ghost use Rattle.gs_links.specs.Choices.{IsAmong, chosen, chosen_depth, depth_of, is_candidate, is_prefix};
ghost use Rattle.gs_links.specs.Documents.{AreNamesOf, names_of};
ghost use Rattle.gs_links.specs.Loads.{expanded, has_link, keeps_names, load_answer};
ghost use Rattle.gs_links.specs.declared.link.Link.{Link};
ghost use Rattle.gs_links.specs.declared.link.Want.{Want};

/// States that the prefixes of an identity are its key with its first k qualifiers, for each k up to their number.
pub fn prefixes_of()
    ensures { (prefix identity : Elements) → (is_prefix prefix identity ≡ true)
        ↔ ((k : ℕ) × (k ≤ length identity.qualifiers) × (prefix ≡ first_qualifiers k identity)) }
{}

/// States that the choice depends only on the identity's key and qualifiers.
pub fn by_key_and_qualifiers()
    ensures { (links : List Link) (a b : Elements) (want : Want) → a.key ≡ b.key → a.qualifiers ≡ b.qualifiers
        → (chosen links a want ≡ chosen links b want)
        × (chosen_depth links a want ≡ chosen_depth links b want) }
{}

/// States that a candidate hides every candidate with fewer qualifiers, and nothing else. The link of a number is chosen if and
/// only if it is a candidate and no candidate has more qualifiers.
pub fn deeper_hides()
    ensures { (links : List Link) (identity : Elements) (want : Want) (i : ℕ) (link : Link)
        → slice_get links i ≡ Some link
        → IsAmong (chosen links identity want) i
        ↔ ((is_candidate identity want link ≡ true)
        × ((j : ℕ) (other : Link) → slice_get links j ≡ Some other → is_candidate identity want other ≡ true
        → depth_of other ≤ depth_of link)) }
{}

/// States that the chosen links have one anchor: the identity's key with its first qualifiers, as many as the depth says.
pub fn one_anchor()
    ensures { (links : List Link) (identity : Elements) (want : Want) (i : ℕ) (link : Link)
        → IsAmong (chosen links identity want) i → slice_get links i ≡ Some link
        → link.anchor ≡ first_qualifiers (chosen_depth links identity want) identity }
{}

/// States that under a vocabulary that keeps names, expanding an expanded relation again does not change it.
pub fn expanded_once()
    ensures { (voc name : List ℕ) → keeps_names voc ≡ true
        → expanded voc (expanded voc name) ≡ expanded voc name }
{}

/// States that two linksets with the same links, in one order, give the same links if both load, however they are cut into
/// contexts.
pub fn same_links_same_store()
    ensures { (table : List AiRow) (voc : List ℕ) (a b : List Context) (x y : List Link)
        → links_of_document a ≡ links_of_document b → load_answer table voc a ≡ Ok x
        → load_answer table voc b ≡ Ok y → x ≡ y }
{}

/// States when a linkset loads to the same links as one that loads. It has those links in one order, and each of its contexts
/// has a link.
pub fn same_links_load()
    ensures { (table : List AiRow) (voc : List ℕ) (a b : List Context) (links : List Link)
        → links_of_document a ≡ links_of_document b → list_all has_link b ≡ true
        → load_answer table voc a ≡ Ok links → load_answer table voc b ≡ Ok links }
{}

/// States that the names of the links' relations are the one ascending list of these names without `anchor`.
pub fn names_of_relations()
    ensures { (links : List Link) (names : List (List ℕ))
        → (names ≡ names_of links) ↔ AreNamesOf links names }
{}
