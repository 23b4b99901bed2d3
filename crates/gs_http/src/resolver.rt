ghost use Rattle.std.specs.Prelude.{◌≡◌, IfOk, vec_len};
ghost use Rattle.gs_http.specs.Wishes.{default_relation};
ghost use Rattle.gs_http.specs.Sites.{room_for};

use gs_ai::AiTable;
use gs_chars::{Memory, Text};
use gs_links::{Store, expand};
use std::alloc::Global;
use std::marker::Model;

/// How requests are answered.
#[derive(Drop)]
pub struct Settings {
    /// The vocabulary that `gs1:` stands for in the relation of a request.
    pub voc: Text,
    /// The bytes of the resolver description file, if there is one.
    pub describe: Option<Text>,
    /// Whether references are templates, whose places the identity of a request fills.
    pub templates: bool,
}

/// The data that requests are answered from.
#[derive(Drop)]
pub struct Site<'a> {
    /// The application identifiers.
    pub table: &'a AiTable,
    /// The links.
    pub store: &'a Store,
    /// How requests are answered.
    pub settings: &'a Settings,
}

impl<'a> Model for Site<'a> {
    ghost use Rattle.gs_http.specs.Sites.{SiteData};

    ghost Value = { SiteData };

    ghost view = { λ s. record { table = s.table.now; links = s.store.now; settings = s.settings.now } };
}

/// A site, with values that are made once for all requests. Contracts see the site.
#[derive(Drop)]
pub struct Resolver<'a> {
    site: &'a Site<'a>,
    /// The relation of a request that names none.
    default_relation: Text,
}

impl<'a> Model for Resolver<'a> {
    ghost use Rattle.std.specs.Prelude.{◌≡◌, codes};
    ghost use Rattle.gs_links.specs.Loads.{expanded};
    ghost use Rattle.gs_http.specs.Sites.{SiteData};

    ghost Value = { SiteData };

    ghost view = { λ r. r.site.now };

    ghost invariant = { λ r. r.default_relation ≡ expanded r.site.now.settings.voc (codes "gs1:defaultLink") };
}

impl<'a> Resolver<'a> {
    /// Returns the resolver of a site. Fails only with `Memory`.
    pub fn new(alloc: Global, site: &'a Site<'a>) -> Result<Resolver<'a>, Memory>
        ensures { IfOk result (λ resolver. resolver ≡ site.now) }
    {
        let voc = site.settings.voc.as_bytes();
        let default = Text::from_bytes(alloc, b"gs1:defaultLink")?;
        Ok(Resolver {
            site,
            default_relation: expand(alloc, voc, default)?,
        })
    }

    /// Returns the resolver of a site, and its room. Fails only with `Memory`.
    pub fn with_room(alloc: Global, site: &'a Site<'a>) -> Result<(Resolver<'a>, Vec<u32>), Memory>
        ensures site { IfOk result (λ made. made.0 ≡ site.now) }
        ensures room { IfOk result (λ made. vec_len made.1 ≡ room_for site.now.links) }
    {
        let resolver = Resolver::new(alloc, site)?;
        let room = resolver.room(alloc)?;
        Ok((resolver, room))
    }

    /// Makes the room for the numbers of links that answering needs, two for each link. One room serves all requests, since
    /// answering need not find it empty. Fails only with `Memory`.
    pub fn room(&self, alloc: Global) -> Result<Vec<u32>, Memory>
        ensures { IfOk result (λ room. vec_len room ≡ room_for self.now.links) }
    {
        let len = self.store().len();
        // no memory has that many numbers if their count overflows
        let Some(count) = len.checked_add(len) else {
            return Err(Memory);
        };
        let room = vec![in alloc; 0u32; count]?;
        Ok(room)
    }

    /// Returns the application identifiers.
    pub(crate) fn table(&self) -> &'a AiTable
        ensures { result.now ≡ self.now.table }
    {
        let site = self.site;
        site.table
    }

    /// Returns the links.
    pub(crate) fn store(&self) -> &'a Store
        ensures { result.now ≡ self.now.links }
    {
        let site = self.site;
        site.store
    }

    /// Returns the settings of replies.
    pub(crate) fn settings(&self) -> &'a Settings
        ensures { result.now ≡ self.now.settings }
    {
        let site = self.site;
        site.settings
    }

    /// Returns the relation of a request that names none.
    pub(crate) fn default_relation(&self) -> &[u8]
        ensures { result.now ≡ default_relation self.now.settings.voc }
    {
        self.default_relation.as_bytes()
    }
}
