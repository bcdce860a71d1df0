//! Help for the commands that change a register, in lines of at most 80 columns.

pub const ENTER_HELP: &str = "\
The text must spell a coordinate reference system with an identifier of its
own, such as ID[\"EPSG\",7837]. The register stores its canonical form. The new
operation gets the office's next number: the greatest one seen plus one. The id
of the operation names the entry, and is printed after OUT is written.

OUT can be REG. If the text is refused, nothing is written.

The note is stored with the operation for good, and printed by crsreg ops. A
note of more than 200 bytes is refused as NoteTooLong.

Example:
  crsreg enter office.crs --as 00000000-0000-4000-8000-00000000000a \\
      --text height.wkt --note 'levelling of 2026, file 17' --out office.crs";

pub const SUPERSEDE_HELP: &str = "\
Marks the entry OLD as superseded by each BY. OLD stays in the register and is
still exported. The new ids are printed after OUT is written, one for each BY.
OUT can be REG.

Each operation has the note, if any. It is kept until a retirement of OLD makes
the operation redundant. With - for BY, the ids are read from standard input,
one a line, as crsreg find --ids prints them.

With -k, or if CRSREG_KEYS is 1, an argument that is not an id is a key, such
as EPSG:7837. It means the entry with this key that is not retired. Where equal
texts have been entered several times, OLD means all of them, and BY the least.
The command is refused as NoEntry if there is none, and as Several ID if their
texts differ.

Refused, with nothing written: NoteTooLong if the note has more than 200 bytes;
then UnknownEntry ID, SameEntry, AlreadyRetired ID or AlreadySuperseded ID, for
the first BY that is not possible.

With --from, FILE is a list: each line is an OLD and its BYs, separated by
blanks. It has the result of one command for each line, in order, and all are
done or none: the first refused line ends the command, and its number follows
the fault, as in UnknownEntry ID at line 7. A line with one word is refused as
BadId. A BY that supersedes OLD already is passed over, so a list can be run
again. With --keep-going, refused lines are left out. After OUT is written, a
line left out: REFUSAL at line N is printed for each, and the status is 1.

Example:
  crsreg supersede -k office.crs EPSG:5783 EPSG:7837 \\
      --as 00000000-0000-4000-8000-00000000000a --out office.crs";

pub const RETIRE_HELP: &str = "\
A retired entry is no longer exported, and stays retired at every office that
merges the operation. The new ids are printed after OUT is written, one for
each ENTRY. OUT can be REG.

Each operation has the note, if any. If two offices retire one entry, the
retirement with the lesser id is kept, with its note. With - for ENTRY, the ids
are read from standard input, one a line, as crsreg find --ids prints them.

With -k, or if CRSREG_KEYS is 1, an argument that is not an id is a key, such
as EPSG:7837. It means the entry with this key that is not retired, or all of
them if equal texts have been entered several times. The command is refused as
NoEntry if there is none, and as Several ID if their texts differ.

Refused, with nothing written: NoteTooLong if the note has more than 200 bytes;
then UnknownEntry ID or AlreadyRetired ID, for the first ENTRY that is not
possible.

Example:
  crsreg retire -k office.crs EPSG:7837 \\
      --as 00000000-0000-4000-8000-00000000000a --note 'entered twice' \\
      --out office.crs";
