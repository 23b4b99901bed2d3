// The text of the help and of the version. bin/tdl prints it too, and reads it here (tools/texts.py), so each text is one
// literal without escapes.

pub(crate) const VERSION: &str = "tdl 1.0.0
";

pub(crate) const BEGINNING: &str = "tdl translates GS1 identities and resolves GS1 Digital Links.

usage: tdl COMMAND [--OPTION VALUE]..
       tdl COMMAND --help
       tdl --help
       tdl --version

Each option takes a value, occurs at most once, and may come in any order.

commands

";

pub(crate) const CANON: &str = "tdl canon FORM
    Print the canonical Digital Link URI of each line of standard input.
    --tables FILE      table document (default: the built-in tables)

";

pub(crate) const TRANSLATE: &str = "tdl translate FROM TO
    Translate each line of standard input from one form to another. TO may be
    canon too, for the canonical Digital Link URI.
    --tables FILE      table document (default: the built-in tables)
    --prefixes FILE    company prefix lengths (default: none)
    --filter NUMBER    filter value if the text has none, 0 to 7
                       (default: none)
    --gcp NUMBER       company prefix length if the text does not give it,
                       1 to 12 (default: none)
    --encoding NAME    encoding of a tag (default: the text's, or any)
    --keys-only WORD   yes or no: keep only the key, with its serial if that is
                       a separate element (default: no)
    --stem URI         stem of a link, 1 to 1,024 bytes that begin with http://
                       or https:// (default: https://id.gs1.org)

";

pub(crate) const CHECK: &str = "tdl check
    Check the files, and print how many rows, entries and links they have.
    --tables FILE      table document (default: the built-in tables)
    --prefixes FILE    company prefix lengths (default: none)
    --links FILE       linkset in JSON (default: none)
    --link-text FILE   linkset as text, in place of --links
    --voc URI          vocabulary of the linkset, 1 to 256 bytes
                       (default: https://ref.gs1.org/voc/)
    --templates WORD   yes or no: target URIs are templates (default: no)

";

pub(crate) const RESOLVE: &str = "tdl resolve --links FILE
    Answer the HTTP requests on standard input.
    --links FILE       linkset in JSON (required, or --link-text)
    --link-text FILE   linkset as text, in place of --links
    --tables FILE      table document (default: the built-in tables)
    --voc URI          vocabulary of the linkset, 1 to 256 bytes
                       (default: https://ref.gs1.org/voc/)
    --templates WORD   yes or no: target URIs are templates (default: no)
    --describe FILE    resolver description file (default: none)

";

pub(crate) const SERVE: &str = "tdl serve --links FILE --count NUMBER
    Answer the HTTP requests of TCP connections, one connection at a time.
    --links FILE       linkset in JSON (required, or --link-text)
    --link-text FILE   linkset as text, in place of --links
    --count NUMBER     number of connections, 1 to 1,000,000 (required)
    --listen HOST:PORT address to listen at (default: 127.0.0.1:8080)
    --tables FILE      table document (default: the built-in tables)
    --voc URI          vocabulary of the linkset, 1 to 256 bytes
                       (default: https://ref.gs1.org/voc/)
    --templates WORD   yes or no: target URIs are templates (default: no)
    --describe FILE    resolver description file (default: none)

";

pub(crate) const GEN: &str = "tdl gen NUMBER
    Translate 0 to 100,000 generated lines, to measure with.
    --tables FILE      table document (default: the built-in tables)

";

pub(crate) const MIGRATE: &str = "tdl migrate --tables FILE
    Print a table document as one of version 2.
    --tables FILE      table document (required)

";

pub(crate) const CLASS: &str = "tdl class canon
    Print the canonical Digital Link URI of each line, a class URI.
    --tables FILE      table document (default: the built-in tables)
    --classes FILE     class document (default: the built-in classes)

tdl class uri
    Print the class URI of each line, a Digital Link URI.
    --tables FILE      table document (default: the built-in tables)
    --prefixes FILE    company prefix lengths (default: none)
    --classes FILE     class document (default: the built-in classes)
    --gcp NUMBER       company prefix length if the text does not give it,
                       1 to 12 (default: none)

";

pub(crate) const DUMP: &str = "tdl dump read
    Print the attribute bits and EPC of each line, a dump of EPC memory.
    --tables FILE      table document (default: the built-in tables)

tdl dump write
    Print the dump of each line, as dump read prints it.
    --tables FILE      table document (default: the built-in tables)

";

pub(crate) const MERGE: &str = "tdl merge --links FILE --second FILE
    Print the linkset that two or three linksets are merged to.
    --links FILE       linkset in JSON (required)
    --second FILE      second linkset in JSON (required)
    --third FILE       third linkset in JSON (default: none)
    --tables FILE      table document (default: the built-in tables)
    --voc URI          vocabulary of the linksets, 1 to 256 bytes
                       (default: https://ref.gs1.org/voc/)

";

pub(crate) const FORMS: &str = "forms
    hex        3034257BF7194E4000001A85
    tag        urn:epc:tag:sgtin-96:1.0614141.812345.6789
    pure       urn:epc:id:sgtin:0614141.812345.6789
    raw        0180614141123458216789, as a barcode scanner transmits it
    bracketed  (01)80614141123458(21)6789
    link       https://example.com/01/80614141123458/21/6789

";

pub(crate) const STATUSES: &str = "statuses
    0  done: each line was answered by ok, or the command printed its output
    1  a line was answered by no
    2  an argument is wrong
    3  a file is rejected, as the line refused says
    4  a file or standard input cannot be read, or the address not listened at
    5  standard output cannot be written
    6  standard input has more than 4,294,967,296 bytes
    8  the arguments cannot be read
    9  out of memory
    Standard error says more with 2, 4, 5, 6, 8 and 9.

";

pub(crate) const DOCUMENTS: &str = "documents
    man tdl, man tdl-tables, man tdl-resolver
    examples in /usr/share/tdl/examples
    in a checkout: docs/TUTORIAL.md   three stories
                   docs/CLI.md        commands, options, reasons, statuses
                   docs/MESSAGES.md   what each message means
                   docs/OPERATIONS.md running the server
";
