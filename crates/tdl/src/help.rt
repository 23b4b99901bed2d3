use crate::text::{
    BEGINNING, CANON, CHECK, CLASS, DOCUMENTS, DUMP, FORMS, GEN, MERGE, MIGRATE, RESOLVE, SERVE,
    STATUSES, TRANSLATE, VERSION,
};
use tdl_arguments::Page;

/// Returns the text of a page, in pieces.
pub fn pieces_of(page: Page) -> &'static [&'static str] {
    match page {
        Page::Help => &[
            BEGINNING, CANON, TRANSLATE, CHECK, RESOLVE, SERVE, GEN, MIGRATE, CLASS, DUMP, MERGE,
            FORMS, STATUSES, DOCUMENTS,
        ],
        Page::Version => &[VERSION],
        Page::Canon => &[CANON, FORMS],
        Page::Translate => &[TRANSLATE, FORMS],
        Page::Check => &[CHECK],
        Page::Resolve => &[RESOLVE],
        Page::Serve => &[SERVE],
        Page::Gen => &[GEN],
        Page::Migrate => &[MIGRATE],
        Page::Class => &[CLASS],
        Page::Dump => &[DUMP],
        Page::Merge => &[MERGE],
    }
}
