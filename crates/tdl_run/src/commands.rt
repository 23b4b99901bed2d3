ghost use Rattle.std.specs.Prelude.{◌≡◌, false};
ghost use Rattle.gs_tables.specs.Judgements.{IsLoaded};
ghost use Rattle.gs_translate.specs.Translations.{AreInOrder};
ghost use Rattle.tdl_arguments.specs.Requests.{options_of, known_values};
ghost use Rattle.tdl_loads.specs.LoadsSupport.{AreKept, HasSource};
ghost use Rattle.tdl_run.specs.RanSupport.{CommandRan, ends_of};
ghost use Rattle.tdl_run.specs.Works.{site_of};

use crate::line_commands::{
    canonize, link_classes, show_dumps, translate_loaded, write_classes, write_dumps,
};
use crate::printed_lines::{counts_line, merged_line, migrated_line, print_made};
use gs_http::Site;
use gs_port::{Door, Sink, Source};
use std::alloc::Global;
use tdl_arguments::{Command, NamedValues};
use tdl_gen::generate;
use tdl_lines::Status;
use tdl_loads::Loaded;
use tdl_serve::{resolve, serve};

/// Returns the site that requests are answered from.
fn site_of(loaded: &Loaded) -> Site<'_>
    ensures { result ≡ site_of loaded.now }
{
    Site {
        table: loaded.tables.ais(),
        store: &loaded.links,
        settings: &loaded.settings,
    }
}

/// Runs a command over the loaded contents. An input or a listener that the command does not use is unchanged.
pub fn run_command<S: Source, K: Sink, D: Door>(
    alloc: Global,
    command: Command,
    values: NamedValues<'_>,
    loaded: &Loaded,
    input: &mut S,
    output: &mut K,
    door: &mut D,
) -> Status
    requires none_open { (D.state door.old).is_open ≡ false }
    requires loaded { IsLoaded loaded.now.tables }
    requires classes { AreKept loaded.now.tables.ais loaded.now.classes }
    requires source { HasSource command loaded.now }
    requires options { AreInOrder (options_of (known_values values)) }
    ensures { CommandRan command (known_values values.entry) loaded.now
        (input.new ≡ input.old) (door.new ≡ door.old)
        (ends_of (S.state input.old) (K.state output.old) (D.state door.old))
        (ends_of (S.state input.new) (K.state output.new) (D.state door.new)) result }
{
    match command {
        Command::Canon(form) => canonize(alloc, form, values, loaded, input, output),
        Command::Translate(from, to) => {
            translate_loaded(alloc, from, to, values, loaded, input, output)
        }
        Command::Check => print_made(counts_line(alloc, loaded), output),
        Command::Resolve => resolve(alloc, &site_of(loaded), input, output),
        Command::Serve => serve(
            alloc,
            &site_of(loaded),
            values.listen,
            values.count,
            door,
            output,
        ),
        Command::Gen(lines) => generate(alloc, &loaded.tables, lines, output),
        Command::Migrate => print_made(migrated_line(alloc, loaded), output),
        Command::ClassCanon => link_classes(alloc, loaded, input, output),
        Command::ClassUri => write_classes(alloc, values, loaded, input, output),
        Command::DumpRead => show_dumps(alloc, loaded, input, output),
        Command::DumpWrite => write_dumps(alloc, loaded, input, output),
        Command::Merge => print_made(merged_line(alloc, loaded), output),
    }
}
