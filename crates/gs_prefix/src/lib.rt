//! Lists of company prefix lengths: which digits begin with a company prefix, and how many of them it has.
//!
//! - `PrefixList::load` reads a list, or gives its first error. `length_of` gives the number of digits of the company prefix
//!   that digits begin with, by the longest row that fits.
//!
//! # Example
//!
//! A GTIN whose company prefix has 7 digits. The gate runs this case, for which crates/vectors_translation/src/prefixes.rt makes the
//! calls.
//!
//! ```text
//! gs_prefix::length_of {"version":1,"prefixes":[{"prefix":"0614141","length":7}]} 06141411234578
//! Some(7)
//! ```
//!
//! # Differences from the standard
//!
//! - GS1 publishes its list as GCPPrefixFormatList, in XML and JSON. This form has the same rows with other member names.
//! - A length of 0 says that the digits belong to no company prefix. The longest row that begins the digits decides.
#![tactic(auto)]

mod document;
mod entry;
mod error;
mod prefix_list;

pub use entry::PrefixEntry;
pub use error::PrefixFault;
pub use prefix_list::PrefixList;
