//! The constants of the page, in their order on the page. `style.rt` and `script.rt` have the other two.

/// The policy allows only this style and this script, by their digests.
pub const BEFORE_TITLE: &[u8] = b"<!DOCTYPE html>
<html lang=\"en\">
<head>
<meta charset=\"utf-8\">
<meta http-equiv=\"Content-Security-Policy\" content=\"default-src 'none'; style-src 'sha256-Dei68JMjrr3Coypd65Cpmny5g31Rj1ZIHcQttKUvFbw='; script-src 'sha256-oasOc/zy44uHnqy1VRmpz1KgQfOkCU60ffh8/QimDR0='; base-uri 'none'; form-action 'none'\">
<meta name=\"viewport\" content=\"width=device-width, initial-scale=1\">
<meta name=\"generator\" content=\"crsreg\">
<title>";

pub const BEFORE_STYLE: &[u8] = b"</title>
<style>";

pub const BEFORE_HEADING: &[u8] = b"</style>
</head>
<body>
<svg class=\"grid\" aria-hidden=\"true\"><path id=\"grid\" d=\"M-180-90H180V90H-180ZM-150-90V90M-120-90V90M-90-90V90M-60-90V90M-30-90V90M0-90V90M30-90V90M60-90V90M90-90V90M120-90V90M150-90V90M-180-60H180M-180-30H180M-180 0H180M-180 30H180M-180 60H180\"></path></svg>
<header>
<h1><bdi>";

pub const BEFORE_FIGURES: &[u8] = b"</bdi></h1>
<p class=\"soft\">A register of coordinate reference systems.</p>
<ul class=\"figures\">
";

// ---- Counts.

pub const COUNT: &[u8] = b"<li><b>";

pub const ENTRIES: &[u8] = b"</b> entries
<small>definitions that offices entered under a code</small></li>
";

pub const VALID: &[u8] = b"</b> <span class=\"valid\">valid</span>
<small>in use</small></li>
";

pub const SUPERSEDED: &[u8] = b"</b> <span class=\"superseded\">superseded</span>
<small>another entry takes its place</small></li>
";

pub const RETIRED: &[u8] = b"</b> <span class=\"retired\">retired</span>
<small>withdrawn</small></li>
";

pub const IN_CONFLICT: &[u8] = b"</b> in conflict
<small>codes with several definitions</small></li>
";

pub const AWAITED: &[u8] = b"</b> awaited
<small>entries that an operation names, and that have not arrived</small></li>
";

pub const GAPS: &[u8] = b"</b> gaps
<small>runs of an office's operations that have not arrived</small></li>
";

pub const OPERATIONS: &[u8] = b"</b> operations
<small>what offices did: an operation enters, supersedes or retires an entry</small></li>
";

pub const AFTER_FIGURES: &[u8] = b"</ul>
</header>
<main>
";

// ---- Conflicts.

pub const CONFLICTS_START: &[u8] = b"<section aria-labelledby=\"conflicts\">
<h2 id=\"conflicts\">Conflicts</h2>
<p class=\"soft\">Each of these codes has several definitions that are not retired. What differs is marked; lines that are the same are folded, except for three around it.</p>
";

pub const CONFLICT: &[u8] = b"<h3 id=\"";

pub const BEFORE_CONFLICT_KEY: &[u8] = b"\"><bdi>";

pub const COLON: &[u8] = b":";

pub const AFTER_CONFLICT_KEY: &[u8] = b"</bdi></h3>
";

pub const PAIR: &[u8] = b"<div class=\"pair\">
";

pub const SIDE: &[u8] = b"<div>
<p><a href=\"#";

pub const BEFORE_SIDE_ID: &[u8] = b"\"><code>";

pub const BEFORE_SIDE_NOTE: &[u8] = b"</code></a> <bdi class=\"soft\">";

pub const BEFORE_SIDE_WORDS: &[u8] = b"</bdi></p>
<pre>
";

pub const WORD: &[u8] = b"<mark>";

pub const AFTER_WORD: &[u8] = b"</mark>";

/// The line feed after the tag is no part of the text, also where the text begins with one.
pub const FOLD: &[u8] = b"</pre>
<details><summary>Lines that are the same</summary><pre>
";

pub const AFTER_FOLD: &[u8] = b"</pre></details>
<pre>
";

pub const AFTER_SIDE: &[u8] = b"</pre>
</div>
";

pub const AFTER_PAIR: &[u8] = b"</div>
";

pub const CONFLICTS_END: &[u8] = b"</section>
";

// ---- Missing entries and operations.

pub const AWAITED_START: &[u8] = b"<section aria-labelledby=\"awaited\">
<h2 id=\"awaited\">Awaited</h2>
<p class=\"soft\">An operation here supersedes or retires these entries, or names them as successors. Their definitions have not arrived: another office has them.</p>
<ul>
";

pub const AWAITED_ITEM: &[u8] = b"<li><code>";

pub const AFTER_AWAITED_ITEM: &[u8] = b"</code></li>
";

pub const AWAITED_END: &[u8] = b"</ul>
</section>
";

pub const GAPS_START: &[u8] = b"<section aria-labelledby=\"gaps\">
<h2 id=\"gaps\">Gaps</h2>
<p class=\"soft\">An office numbers what it does. Operations with these numbers have not arrived, but later ones of the same office have.</p>
<table class=\"gaps\">
<thead><tr><th scope=\"col\">Office</th><th scope=\"col\">From</th><th scope=\"col\">To</th></tr></thead>
<tbody>
";

pub const GAP: &[u8] = b"<tr><td><code>";

pub const BEFORE_LOW: &[u8] = b"</code></td><td>";

pub const AFTER_LOW: &[u8] = b"</td>";

pub const BEFORE_HIGH: &[u8] = b"<td>";

pub const AFTER_GAP: &[u8] = b"</td></tr>
";

pub const GAPS_END: &[u8] = b"</tbody>
</table>
</section>
";

// ---- Entries.

pub const ENTRIES_START: &[u8] = b"<section aria-labelledby=\"entries\">
<h2 id=\"entries\">Entries</h2>
<p id=\"searching\" role=\"search\" hidden><label for=\"search\">Search codes, names, areas, kinds, statuses and ids</label>
<input id=\"search\" type=\"search\" autocomplete=\"off\" spellcheck=\"false\">
<output id=\"found\" for=\"search\"></output></p>
<p id=\"printing\" hidden><label><input id=\"texts\" type=\"checkbox\"> Print with definitions</label></p>
<table class=\"entries\" role=\"table\" aria-labelledby=\"entries\">
<thead role=\"rowgroup\"><tr role=\"row\"><th scope=\"col\" role=\"columnheader\">Code</th><th scope=\"col\" role=\"columnheader\">Name and area of use</th><th scope=\"col\" role=\"columnheader\">Kind</th><th scope=\"col\" role=\"columnheader\">Status</th></tr></thead>
<tbody id=\"rows\" role=\"rowgroup\">
";

pub const ENTRY: &[u8] = b"<tr role=\"row\" id=\"";

pub const BEFORE_ENTRY_LINK: &[u8] = b"\">
<th scope=\"row\" role=\"rowheader\"><a href=\"#";

pub const BEFORE_ENTRY_KEY: &[u8] = b"\"><bdi>";

pub const BEFORE_NAME: &[u8] = b"</bdi></a></th>
<td role=\"cell\"><details><summary><bdi>";

// ---- Maps. The numbers of a drawing are those of the definition; north is up by the style.

pub const MAP: &[u8] =
    b"<figure class=\"map\"><svg viewBox=\"-180 -90 360 180\" aria-hidden=\"true\"><use href=\"#grid\"></use>";

pub const BOX: &[u8] = b"<path d=\"M";

pub const COMMA: &[u8] = b",";

pub const ACROSS: &[u8] = b"H";

pub const UP: &[u8] = b"V";

pub const AFTER_BOX: &[u8] = b"Z\"></path>";

/// A box that crosses the meridian of 180 degrees is drawn up to it, and from it on.
pub const TO_EAST_END: &[u8] = b"H180V";

pub const FROM_WEST_END: &[u8] = b"ZM-180,";

pub const AFTER_WEST_END: &[u8] = b"H-180Z\"></path>";

pub const BEFORE_SOUTH: &[u8] = b"</svg>
<figcaption>Latitude ";

pub const BEFORE_NORTH: &[u8] = b" to ";

pub const BEFORE_WEST: &[u8] = b", longitude ";

pub const BEFORE_EAST: &[u8] = b" to ";

pub const AFTER_MAP: &[u8] = b"</figcaption></figure>
";

// ---- Entries, after their names.

pub const AFTER_NAME: &[u8] = b"</bdi></summary>
";

pub const BEFORE_TEXT: &[u8] = b"<pre>";

pub const AFTER_TEXT: &[u8] = b"</pre>
";

/// A text that another row has is there alone.
pub const SAME_TEXT: &[u8] = b"<div>The same text as <a href=\"#";

pub const BEFORE_SAME_ID: &[u8] = b"\"><code>";

pub const AFTER_SAME_TEXT: &[u8] = b"</code></a></div>
";

pub const QUESTION: &[u8] = b"<p><bdi>";

pub const AFTER_QUESTION: &[u8] = b"</bdi></p>
";

pub const BEFORE_ENTRY_ID: &[u8] = b"<ul>
<li>Entered as <code>";

pub const BEFORE_ENTRY_NOTE: &[u8] = b"</code> <bdi class=\"soft\">";

pub const AFTER_ENTRY_NOTE: &[u8] = b"</bdi></li>
";

pub const SUPERSEDED_BY: &[u8] = b"<li>Superseded by ";

pub const RETIRED_BY: &[u8] = b"<li>Retired";

pub const BEFORE_OPERATION: &[u8] = b" in <code>";

pub const BEFORE_NOTE: &[u8] = b"</code> <bdi class=\"soft\">";

pub const AFTER_NOTE: &[u8] = b"</bdi></li>
";

pub const AFTER_HISTORY: &[u8] = b"</ul></details>
";

pub const AREA: &[u8] = b"<p><bdi>";

pub const AFTER_AREA: &[u8] = b"</bdi></p>
";

pub const BEFORE_KIND: &[u8] = b"</td>
<td role=\"cell\">";

pub const BEFORE_STANDING: &[u8] = b"</td>
";

pub const VALID_CELL: &[u8] = b"<td role=\"cell\" class=\"valid\">valid";

pub const SUPERSEDED_CELL: &[u8] = b"<td role=\"cell\" class=\"superseded\">superseded";

pub const RETIRED_CELL: &[u8] = b"<td role=\"cell\" class=\"retired\">retired";

pub const BY: &[u8] = b"<span>by ";

pub const AFTER_BY: &[u8] = b"</span>";

pub const BEFORE_CONFLICT_LINK: &[u8] = b"<span><a href=\"#";

pub const AFTER_CONFLICT_LINK: &[u8] = b"\">in conflict</a></span>";

pub const AFTER_ENTRY: &[u8] = b"</td>
</tr>
";

pub const LINK: &[u8] = b"<a href=\"#";

pub const BEFORE_LINK_KEY: &[u8] = b"\"><bdi>";

pub const AFTER_LINK: &[u8] = b"</bdi></a>";

pub const MISSING: &[u8] = b"<code>";

pub const AFTER_MISSING: &[u8] = b"</code>";

pub const ENTRIES_END: &[u8] = b"</tbody>
</table>
</section>
";

// ---- Retired entries.

pub const RETIRED_START: &[u8] = b"<section aria-labelledby=\"retired\">
<h2 id=\"retired\">Retired entries</h2>
<p class=\"soft\">Offices withdrew these entries. Do not use them for new data.</p>
<details id=\"withdrawn\"><summary>Show the retired entries</summary>
<table class=\"entries\" role=\"table\" aria-labelledby=\"retired\">
<thead role=\"rowgroup\"><tr role=\"row\"><th scope=\"col\" role=\"columnheader\">Code</th><th scope=\"col\" role=\"columnheader\">Name and area of use</th><th scope=\"col\" role=\"columnheader\">Kind</th><th scope=\"col\" role=\"columnheader\">Status</th></tr></thead>
<tbody id=\"gone\" role=\"rowgroup\">
";

pub const RETIRED_END: &[u8] = b"</tbody>
</table>
</details>
</section>
";

// ---- The end of the page.

pub const MAIN_END: &[u8] = b"</main>
<script>";

pub const PAGE_END: &[u8] = b"</script>
</body>
</html>
";
