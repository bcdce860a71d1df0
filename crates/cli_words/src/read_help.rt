//! Help for the commands that show a register, in lines of at most 80 columns.

pub const SHOW_HELP: &str = "\
Prints the header of the report of entries, and the line of this entry.

With -k, or if CRSREG_KEYS is 1, an argument that is not an id is a key, such
as EPSG:7837. It means the entry with this key that is not retired, or the least
of several with one text. The command is refused as NoEntry if there is none,
and as Several ID if their texts differ.

Example:
  crsreg show -k office.crs EPSG:7837
  crsreg show office.crs 00000000-0000-4000-8000-00000000000a:1";

pub const WKT_HELP: &str = "\
An entry is named by the id of the operation that entered it: a replica's UUID,
a colon and a number. Its text is printed whatever its status, on one line, or
indented with --pretty.

With -k, or if CRSREG_KEYS is 1, an argument that is not an id is a key, such
as EPSG:7837. It means the entry with this key that is not retired, or the least
of several with one text. The command is refused as NoEntry if there is none,
and as Several ID if their texts differ.

Example:
  crsreg wkt -k office.crs EPSG:7837
  crsreg wkt office.crs 00000000-0000-4000-8000-00000000000a:1";

pub const TEXTS_HELP: &str = "\
Prints each text of an entry that is not retired, ordered by key and then by
text, each text of a key once: a line with the key and the status, the indented
text, and an empty line. After superseded, the line has the keys of the
superseding entries that are not retired. A line break within a key is printed
as a space.

It prints no ids, so registers with the same keys, texts and statuses print the
same. As git's textconv it shows the lines that changed.

Example:
  crsreg texts office.crs";

pub const COMPARE_HELP: &str = "\
Prints the lines that differ between the indented texts of two entries, as a
unified diff, which the command patch applies: lines of the first text begin
with -, lines of the second with +, lines of both with a space. If the texts are
equal, it prints nothing.

Without OTHER, ENTRY is a key. Of the entries with this key that are not
retired, the one with the least id is compared with each of the others. The
command is refused as NoEntry if there is none.

With --with FILE, each text of FILE, as crsreg import splits it, is compared
with the entries of its key that are not retired. Lines that the text adds begin
with +. A text whose key has no such entry is added as a whole. With
--keep-going, texts that cannot be read or have no identifier are passed over;
the first is named at the end, with status 1, as by crsreg import.

With -k, or if CRSREG_KEYS is 1, an argument that is not an id is a key, such
as EPSG:7837. It means the entry with this key that is not retired, or the least
of several with one text. The command is refused as NoEntry if there is none,
and as Several ID if their texts differ.

Example:
  crsreg compare office.crs EPSG:7837
  crsreg compare -k office.crs EPSG:7837 EPSG:5783
  crsreg compare office.crs --with new.wkt";

pub const EXPORT_HELP: &str = "\
Prints the canonical text of each entry that is not retired, superseded ones
included, one a line, ordered by id. Line breaks within quotation marks stay.

With --into, --geojson, --proj-sql or --csv it hands these entries on to other
programs, or those that match --status and --authority. If two of them have one
key and different texts, it is refused as KeyTaken ID, the least such entry of
the least key. With --keep-going such keys are left out; the first is named at
the end, with status 1.

--into writes a file AUTHORITY_CODE.wkt for each key, with the canonical text
and a newline. Bytes other than A-Z, a-z, 0-9, . and - become % and two
hexadecimal digits; so do the capitals of two names that differ by case alone.
DIR must be an empty folder, or not exist. The files are written to DIR.new,
which is then renamed: DIR has all files or is not there. With --keep-going, a
key whose name would have more than 255 bytes is left out; a line left out:
NameTooLong ID names the first.

--geojson prints a feature for each USAGE that has a BBOX. A box whose west is
greater than its east is cut at 180 degrees. QGIS opens it.

--proj-sql prints SQL that puts the entries into an auxiliary database of PROJ,
vertical and compound ones too. What PROJ's tables cannot hold is left out, with
a line \"-- left out: ID NAME\". A code that PROJ's own database has stays
PROJ's, so give variants an authority of your own; entries of EPSG are left out
without --all. Set PROJ_AUX_DB for a project, not in a login profile: with it
each look-up takes longer.

--csv prints a row for each key, by key: authority, code, name, kind, area and
bounding box of the first USAGE, status, and the keys of the entries that
supersede it. Retired entries have none.

Example:
  crsreg export office.crs > all.wkt
  crsreg export office.crs --into texts
  crsreg export office.crs --geojson > office.geojson
  crsreg export office.crs --csv > office.csv
  (projinfo --dump-db-structure; crsreg export office.crs --proj-sql) |
    sqlite3 aux.db
  PROJ_AUX_DB=aux.db projinfo OFFICE:25832";

pub const GRAPH_HELP: &str = "\
Prints a graph in DOT, the language of Graphviz: a node for each entry that has
an edge or is in conflict, or with --all for every entry, with its key and its
name. Valid entries are green, superseded ones yellow, retired ones gray. An
edge leads from a superseded entry to each entry that supersedes it. A red line
joins the first entry of a key in conflict to each of the others.

Example:
  crsreg graph office.crs | dot -Tsvg > office.svg";

pub const OPS_HELP: &str = "\
Prints, as comma-separated values, each operation that the register keeps,
ordered by id: its effect, the entry, the superseding entry, the definition,
and the note. Redundant operations are dropped with their notes; the register
remembers that it has seen them.

Example:
  crsreg ops office.crs";

pub const LOG_HELP: &str = "\
Prints, as comma-separated values, the operations that the register keeps on
these entries, or on all entries: for each entry, by id, its enter, its
supersessions and its retirement, with their notes. Redundant operations are not
kept.

With -k, or if CRSREG_KEYS is 1, an argument that is not an id is a key, such
as EPSG:7837. It means all entries with this key, retired ones too. The command
is refused as NoEntry if there are none, and as UnknownEntry ID if the register
keeps no operation on an id.

Example:
  crsreg log -k office.crs EPSG:7837";

pub const REPORT_HELP: &str = "\
Prints comma-separated values with a header:
  entries    each entry: its key, name, status, and what supersedes it
  conflicts  entries with one key and different texts that are not retired
  awaited    ids that operations name and that no operation has entered
  gaps       numbers below an office's greatest one that were not seen
  duplicates entries of one key and one text that are not retired
  dangling   superseded entries from which no chain of supersessions leads to a
             valid one: it ends at a retired or an awaited id, or is a circle
  withdrawn  entries of keys whose entries are all retired

Example:
  crsreg report office.crs conflicts";
