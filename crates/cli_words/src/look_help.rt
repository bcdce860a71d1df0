//! Help for the commands that find and compare, in lines of at most 80 columns.

pub const FIND_HELP: &str = "\
Prints the lines of the report of entries that match WORD and every option
given, or all lines without these. WORD is a key if an entry has this key, and
otherwise a part of the name or the code. The letters A to Z match in either
case, but in codes, which match byte for byte. With --text a datum, an ensemble,
an ellipsoid or a method has PART in its name, or the remark has it. An empty
WORD, PART, A, C or AUTH:CODE is an error, since it would match every entry or
none. A point on the border of a bounding box is in it. If west is greater than
east, the box crosses the meridian of 180 degrees.

With --ids it prints only the ids. If no entry matches, it is refused as
NoEntry, so $(crsreg find .. --ids) is safe in scripts.

Example:
  crsreg find office.crs epsg:25832
  crsreg find office.crs 'utm zone 32' --at 50.1,8.7 --status live";

pub const STATUS_OF_HELP: &str = "\
Prints a line of comma-separated values for each FILE: its size; the numbers of
operations, of entries, and of entries of each status; the numbers of keys in
conflict, of awaited ids, and of ranges of missing ids; the numbers of keys with
equal texts, of dangling entries, and of withdrawn keys (crsreg help report).
The line of a file that is not a register shows its fault. The first such fault
is also printed to standard error, with status 3.

With --settled it is refused as Unsettled if a register has a conflict, an
awaited id, a gap, a key with equal texts or a dangling entry. With --shelf each
FILE is a shelf, and the size is that of the register's file on it.

Example:
  crsreg status north.crs south.crs --settled";

pub const LINT_HELP: &str = "\
Prints comma-separated values for each rule of sense and each entry that breaks
it and is not retired: rule, entry, authority, code, name, detail; by rule, then
by id. A text can be correct in form and still say what an expert would ask
about, such as a scale factor of 9996. The detail is a sentence with the value
found and the value expected. Nothing is refused.

With --texts it looks at the texts of files, and entry is the file and the
offset of the text, as a.wkt:0. A text needs no identifier. A text that cannot
be read is refused as by crsreg check.

With --known it leaves out the rows of a file that earlier calls printed and
somebody looked at. A row is known again by its rule, authority, code, name and
detail; further columns are passed over.

With --status it looks only at entries with this status, and compares only these
with each other. With --exit-code the status is 1 if there are rows.

The rules are accuracy, angle, away, axes, axisname, box, case, datum, dms,
ellipsoid, falseunit, figure, height, key, meridian, name, operation, parallels,
parts, primem, quantity, radian, refname, samename, scale, twin, unit, unitname
and zone. Without --rule it looks by all of these but twin. The rules case,
datum, parts, refname, samename and twin look at a text beside all others of the
register or of the files.

Example:
  crsreg lint office.crs --known looked-at.csv --table
  crsreg lint --texts *.wkt --rule zone,unit";

pub const OFFICES_HELP: &str = "\
Prints comma-separated values for each office with a seen operation: the
greatest number seen, how many lower numbers were not seen, and how many of its
operations are kept.

Example:
  crsreg offices office.crs";

pub const PAGE_HELP: &str = "\
Prints one file of HTML for people without this tool: counts, keys in conflict
with their texts side by side, awaited ids, gaps, and a row for each entry with
its text and its history. The file needs no network and no other file. A browser
can search and print it.

With --lint, the sentences of lint about an entry follow its text. Equal
registers have equal pages: there is no date. Without --title the title is
\"The register\".

Example:
  crsreg page office.crs --title 'National register' > register.html";

pub const DIFF_HELP: &str = "\
Merges the files NEW like crsreg merge, and compares the reports of entries.
Prints the lines that only OLD has (-) and those that only the merge has (+),
ordered by id. Gaps, awaited ids and notes are not compared.

What a merge would change:
  crsreg diff office.crs office.crs north.crs";
