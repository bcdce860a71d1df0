//! The style sheet of the page.

/// It has no `<`, so that no tag begins in it.
pub const STYLE: &[u8] = b"
:root{color-scheme:light dark;--paper:#fff;--card:#f6f8fa;--ink:#1b1f24;--soft:#57606a;--line:#d0d7de;--link:#0a56b8;--mark:#ffe08a;--valid:#116329;--superseded:#7d4e00;--retired:#a40e26}
@media (prefers-color-scheme:dark){:root{--paper:#0d1117;--card:#161b22;--ink:#e6edf3;--soft:#9da9b5;--line:#30363d;--link:#79b8ff;--mark:#6b5500;--valid:#56d364;--superseded:#e3b341;--retired:#ff8f87}}
*{box-sizing:border-box}
body{overflow-wrap:anywhere;margin:0 auto;max-width:78rem;padding:1.25rem clamp(.75rem,3vw,2rem) 4rem;background:var(--paper);color:var(--ink);font:16px/1.5 system-ui,-apple-system,'Segoe UI',Roboto,'Noto Sans',sans-serif}
h1{margin:0;font-size:1.7rem;line-height:1.2}
h2{margin:2.25rem 0 .5rem;padding-bottom:.3rem;border-bottom:1px solid var(--line);font-size:1.25rem}
h3{margin:1.25rem 0 .5rem;scroll-margin-top:.5rem;font-size:1.05rem}
p{margin:.35rem 0}
a{color:var(--link);text-underline-offset:.15em}
code,pre,tbody th{font-family:ui-monospace,SFMono-Regular,Menlo,Consolas,'DejaVu Sans Mono',monospace;font-size:.82rem}
code{overflow-wrap:anywhere}
pre{margin:.5rem 0;padding:.75rem;background:var(--card);border-radius:6px;line-height:1.45;white-space:pre-wrap;overflow-wrap:anywhere;tab-size:4}
mark{background:var(--mark);color:inherit;text-decoration:underline;text-decoration-thickness:.08em;text-underline-offset:.2em}
.soft{color:var(--soft)}
.valid{color:var(--valid)}
.superseded{color:var(--superseded)}
.retired{color:var(--retired)}
.figures{display:grid;grid-template-columns:repeat(auto-fill,minmax(15rem,1fr));gap:.6rem;margin:1rem 0 0;padding:0;list-style:none}
.figures li{padding:.5rem .75rem;border:1px solid var(--line);border-radius:8px;font-size:.9rem}
.figures small{display:block;margin-top:.1rem;color:var(--soft);font-size:.78rem;line-height:1.3}
.figures b{display:block;font-size:1.4rem;line-height:1.25;font-variant-numeric:tabular-nums}
.pair{display:grid;grid-template-columns:1fr 1fr;gap:1rem;margin-bottom:1rem}
.pair div{min-width:0;padding:.6rem .9rem;border:1px solid var(--line);border-radius:8px}
.pair pre{padding:0;background:none}
.pair pre:empty{display:none}
.pair summary{color:var(--soft);font-size:.85rem}
.pair bdi{display:block}
#search{display:block;width:100%;margin:.25rem 0;padding:.55rem .8rem;border:1px solid var(--soft);border-radius:8px;background:var(--paper);color:inherit;font:inherit}
#found{color:var(--soft);font-size:.9rem}
#printing{color:var(--soft);font-size:.9rem}
.grid{position:absolute;width:0;height:0}
.map{float:right;width:15rem;max-width:100%;margin:.35rem 0 .5rem 1rem}
.map svg{display:block;width:100%;background:var(--card);border-radius:6px;overflow:hidden}
.map use,.map path{fill:none;stroke:var(--line);stroke-width:1px;vector-effect:non-scaling-stroke;transform:scaleY(-1)}
#grid{stroke:inherit;stroke-width:inherit;vector-effect:inherit;transform:none}
.map path{fill:var(--link);fill-opacity:.35;stroke:var(--link);stroke-width:2.5px;stroke-linejoin:round}
.map figcaption{margin-top:.2rem;color:var(--soft);font-size:.8rem;line-height:1.35}
:focus-visible{outline:3px solid var(--link);outline-offset:2px}
table{width:100%;border-collapse:collapse}
th,td{padding:.5rem .6rem;border-bottom:1px solid var(--line);text-align:left;vertical-align:top}
thead th{font-size:.85rem;color:var(--soft)}
tbody th{font-weight:600;padding-top:.6rem;overflow-wrap:anywhere}
tbody tr:target,tbody tr.aim{background:var(--card);box-shadow:inset 4px 0 var(--link)}
.entries,.entries thead,.entries tbody{display:block}
.entries thead{position:sticky;top:0;z-index:1;background:var(--paper)}
.entries tr{display:grid;grid-template-columns:9.5rem minmax(0,1fr) 7.5rem 9.5rem;border-bottom:1px solid var(--line)}
.entries th,.entries td{border:0}
.entries tbody tr{content-visibility:auto;contain-intrinsic-size:auto 4rem;scroll-margin-top:3rem}
.entries div{margin:.5rem 0 0;font-size:.9rem}
.entries p{margin:.1rem 0 0 1.15rem;color:var(--soft);font-size:.88rem;overflow-wrap:anywhere}
.entries td span{display:block}
.entries tr[hidden]{display:none}
.gaps{width:auto}
summary{cursor:pointer;overflow-wrap:anywhere}
details pre{clear:none}
#withdrawn>summary{padding:.35rem 0}
details ul{margin:.5rem 0 .75rem;padding-left:1.15rem;font-size:.9rem}
@media (max-width:46rem){
.figures{grid-template-columns:1fr 1fr}
.map{float:none;margin:.5rem 0}
.pair{grid-template-columns:1fr}
.entries thead{position:absolute;width:1px;height:1px;overflow:hidden;clip-path:inset(50%)}
.entries tbody tr{grid-template-columns:auto minmax(0,1fr);padding:.5rem .25rem}
.entries tbody th,.entries tbody td{padding:.1rem 0}
.entries tbody th,.entries tbody td:nth-child(2){grid-column:1/3}
.entries td+td{margin-left:1.15rem;font-size:.88rem}
.entries td span{display:inline;margin-left:.35em}
}
@media print{
:root{color-scheme:light}
body{max-width:none;padding:0;font-size:10pt}
#searching,#printing{display:none}
a{color:inherit}
.entries thead{position:static}
.entries tbody tr{content-visibility:visible}
tr,.figures li,.map{break-inside:avoid}
.entries tr:has(details[open]),.pair{break-inside:auto}
.map svg{border:1px solid var(--line)}
pre{background:none;padding:0}
h2,h3{break-after:avoid}
mark{background:none;font-weight:700}
}
";
