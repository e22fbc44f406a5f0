//! The head of the page: how its parts look, and the patterns by which they are told apart without colour.
ghost use Rattle.std.specs.Prelude.{◌≡◌, ◌++◌, OnOk, string_bytes};
ghost use Rattle.plan_page.specs.Page.{beginning, head, looks};

use crate::escaping::add_escaped;
use break_rules::NoMemory;

/// What stands before the title.
pub(crate) const BEGINNING: &str = "\
<!DOCTYPE html>
<html lang=\"en\">
<head>
<meta charset=\"utf-8\">
<meta name=\"viewport\" content=\"width=device-width,initial-scale=1\">
<title>";

/// How the page looks, on wide screens, on narrow ones and on paper, where each day begins a page, with stripes for employees too many and a lattice for
/// employees too few. It stands between the title and the heading.
pub(crate) const LOOKS: &str = "\
</title>
<style>
body{font:15px/1.4 sans-serif;color:#111;background:#fff;max-width:70em;margin:0 auto;padding:0 .8em}
h1{font-size:1.5em;margin:.6em 0 .2em}h2{font-size:1.15em;margin:1.4em 0 .2em}
p{margin:.3em 0}
.tables{display:flex;flex-wrap:wrap;gap:.5em 2em;align-items:flex-start}
table{border-collapse:collapse;font-variant-numeric:tabular-nums}
caption{text-align:left;font-weight:bold;padding:.4em 0 .2em}
th,td{padding:.1em .5em;text-align:right;border-bottom:1px solid #ccc;font-weight:normal}
thead th{border-bottom:2px solid #111}tfoot th,tfoot td{border-top:2px solid #111}
th:first-child,td:first-child{text-align:left;padding-left:0}
svg{display:block;width:100%;overflow:hidden}
.chart{height:190px;border-bottom:1px solid #111}
.bar{height:16px}
.covered{fill:#a9bfdc}.over{fill:url(#over);stroke:#a35f00;stroke-width:.5}.under{fill:url(#under);stroke:#b00020;stroke-width:.5}
.need{fill:none;stroke:#111;stroke-width:2;vector-effect:non-scaling-stroke}
.grid{fill:none;stroke:#bbb;stroke-width:1;stroke-dasharray:2 3;vector-effect:non-scaling-stroke}
.work{fill:#4a6c9b}.break{fill:#fff;stroke:#111;stroke-width:1;vector-effect:non-scaling-stroke}
.row{display:grid;grid-template-columns:17em 1fr;gap:0 .6em;align-items:center;padding:.14em 0;break-inside:avoid}
.row>span{font-size:.87em;line-height:1.25;overflow-wrap:anywhere}
.axis{position:relative;align-self:stretch;text-align:right}.axis>span{position:absolute;right:0;top:0}.axis>span[style]{transform:translateY(-50%)}.axis>span:last-child{top:auto;bottom:0}
pre{font:.87em/1.35 monospace;white-space:pre-wrap;margin:.2em 0}
.hours{display:grid;grid-template-columns:repeat(8,1fr);font-size:.75em;color:#333}
.key{margin-top:.8em;display:flex;flex-wrap:wrap;gap:.2em 1.2em;font-size:.87em}.key span{display:flex;align-items:center;gap:.4em}
.key svg{width:28px;height:14px;flex:none}
.day{break-inside:avoid-page}
@media(max-width:640px){body{font-size:14px}.row{grid-template-columns:1fr}.axis>span{position:static}.axis>span+span{display:none}.tables{gap:.3em}th,td{padding:.1em .3em}.chart{height:150px}.bar{height:12px}}
@page{margin:10mm}
@media print{body{max-width:none;font-size:12px}h2{margin:.3em 0 .1em;break-after:avoid}.day{break-before:page}.chart{height:110px}.bar{height:9px}.row{padding:1px 0}.row>span{font-size:.82em;line-height:1.2}.covered,.over,.under,.work,.break{print-color-adjust:exact;-webkit-print-color-adjust:exact}}
</style>
</head>
<body>
<svg width=\"0\" height=\"0\" style=\"position:absolute;width:0\" aria-hidden=\"true\"><defs>
<pattern id=\"over\" width=\"10\" height=\"10\" patternUnits=\"userSpaceOnUse\" patternTransform=\"rotate(45)\"><rect width=\"10\" height=\"10\" fill=\"#ffe3b8\"/><rect width=\"4\" height=\"10\" fill=\"#d07a00\"/></pattern>
<pattern id=\"under\" width=\"12\" height=\"12\" patternUnits=\"userSpaceOnUse\"><rect width=\"12\" height=\"12\" fill=\"#fff\"/><path d=\"M0 0L12 12M12 0L0 12\" stroke=\"#b00020\" stroke-width=\"2.5\"/></pattern>
</defs></svg>
<h1>";

/// Adds what stands before the title.
#[tactic(auto, unfolding(crate::specs::Page::beginning))]
fn add_beginning(page: &mut String) -> Result<(), NoMemory>
    ensures { OnOk result (string_bytes page.new ≡ string_bytes page.old ++ beginning) }
{
    page.push_str(BEGINNING)
}

/// Adds how the page looks.
#[tactic(auto, unfolding(crate::specs::Page::looks))]
fn add_looks(page: &mut String) -> Result<(), NoMemory>
    ensures { OnOk result (string_bytes page.new ≡ string_bytes page.old ++ looks) }
{
    page.push_str(LOOKS)
}

/// Adds the beginning of the page, up to its heading.
#[tactic(auto, unfolding(crate::specs::Page::head))]
pub(crate) fn add_head(page: &mut String, heading: &str) -> Result<(), NoMemory>
    ensures { OnOk result (string_bytes page.new ≡ string_bytes page.old ++ head heading.now) }
{
    add_beginning(page)?;
    add_escaped(page, heading)?;
    add_looks(page)?;
    add_escaped(page, heading)?;
    page.push_str("</h1>\n")
}
