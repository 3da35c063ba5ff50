//! The parts of the page's style sheet. Colours only underline what signs and words say, so that
//! the page reads in grey.

ghost use Rattle.std.specs.Prelude.{◌≡◌};
ghost use Rattle.draw_page.specs.Sheets.{part_words};

/// The parts, in the order of the sheet; the looks of drawings stand before the last two.
#[derive(Clone, Copy)]
pub enum Part {
    Text,
    Tables,
    Marks,
    Drawings,
    Narrow,
    Print,
}

/// The rules of a part.
#[tactic(auto, unfolding(crate::specs::Sheets::part_words))]
pub fn rules_of(part: Part) -> &'static [u8]
    ensures { result.now ≡ part_words part }
{
    match part {
        Part::Text => TEXT,
        Part::Tables => TABLES,
        Part::Marks => MARKS,
        Part::Drawings => DRAWINGS,
        Part::Narrow => NARROW,
        Part::Print => PRINT,
    }
}

/// Text, headings and links.
pub const TEXT: &[u8] = b"
:root { --ink: #16232f; --soft: #55646f; --line: #d7dfe5; --pale: #f5f7f9; --link: #24609f;
  --yes: #1d7a3a; --yes-pale: #e7f4ea; --no: #b3261e; --no-pale: #fbe9e7;
  --unknown: #7a5200; --unknown-pale: #fff4dc }
* { box-sizing: border-box }
body { margin: 0; color: var(--ink); background: white;
  font: 15px/1.5 system-ui, 'DejaVu Sans', sans-serif }
main { max-width: 1180px; margin: 0 auto; padding: 36px 24px 72px }
h1 { font-size: 28px; line-height: 1.2; margin: 0 0 6px; overflow-wrap: anywhere }
h2 { font-size: 19px; margin: 44px 0 12px; padding-top: 20px; border-top: 1px solid var(--line) }
h3 { font-size: 16px; margin: 30px 0 6px; overflow-wrap: anywhere }
p { margin: 0 0 10px; max-width: 80ch; overflow-wrap: anywhere }
a { color: var(--link) }
code, pre { font: 13px/1.45 ui-monospace, 'DejaVu Sans Mono', monospace }
code { overflow-wrap: anywhere }
.subject, .small { color: var(--soft) }
.small { font-size: 13px }
.note { border-left: 3px solid var(--unknown); padding-left: 10px }
nav ul { display: flex; flex-wrap: wrap; gap: 4px 18px; list-style: none; margin: 16px 0 0;
  padding: 0 }
summary { cursor: pointer; color: var(--link); padding: 4px 0 }
pre { background: var(--pale); padding: 12px; overflow: auto; max-height: 60vh; margin: 4px 0 12px }
pre.why { white-space: pre-wrap; max-height: none; border-left: 3px solid var(--no) }
";

/// Tables.
pub const TABLES: &[u8] = b"
.wide { overflow-x: auto; margin: 0 0 14px }
table { border-collapse: collapse; font-variant-numeric: tabular-nums }
th, td { padding: 6px 14px 6px 0; border-bottom: 1px solid var(--line); text-align: left;
  vertical-align: top }
thead th { color: var(--soft); font-weight: 600; font-size: 13px; vertical-align: bottom }
tbody th { font-weight: 600 }
.matrix, .times, .ends { width: 100% }
.matrix thead tr:first-child th[scope=colgroup] { border-bottom-color: transparent;
  color: var(--ink); font-size: 15px }
.number, .state { white-space: nowrap }
.number { text-align: right }
.matrix td:nth-child(3n + 1) { white-space: normal; min-width: 6.2em }
.matrix:has(th[scope=colgroup]:nth-child(5)) { font-size: 13.5px }
.matrix:has(th[scope=colgroup]:nth-child(5)) :is(th, td) { padding-right: 9px }
.matrix thead tr + tr th:nth-child(3n), .matrix thead tr + tr th:nth-child(3n + 2),
  .told thead th + th, .times thead th:nth-child(n + 2):nth-child(-n + 4),
  .ends thead th:nth-child(n + 3):nth-child(-n + 5), .scripts thead th:nth-child(2),
  .scripts thead th:nth-child(3) { text-align: right }
.matrix .state, .matrix th[scope=colgroup], .matrix thead tr + tr th:nth-child(3n + 1), .by,
  .ends thead th:last-child { padding-left: 20px }
.told { min-width: 420px }
td.bar, .times thead th:last-child { padding-left: 20px }
.label { display: none }
.times tbody th, .told tbody th { font-weight: 400 }
.lost { display: block; color: var(--soft); font-size: 12px; white-space: normal }
td.bar { width: 32%; padding-right: 0 }
td.bar svg { display: block; width: 100%; height: auto; margin-top: 4px }
.hash code { font-size: 12px }
.block th { color: var(--soft); font-weight: 400; font-size: 13px; white-space: nowrap }
.block th, .block td { border: 0; padding: 2px 14px 2px 0 }
.block .label { display: inline; color: var(--soft); font-size: 13px }
.scripts td span + span { margin-left: 10px }
";

/// Counts, verdicts and strips.
pub const MARKS: &[u8] = b"
.tiles { display: flex; flex-wrap: wrap; gap: 12px; margin: 20px 0 16px }
.tile { border: 1px solid var(--line); border-radius: 8px; padding: 10px 18px; min-width: 150px;
  max-width: 320px }
.tile strong { display: block; font-size: 30px; line-height: 1.2 }
.tile span { color: var(--soft) }
.tile.yes strong { color: var(--yes) }
.tile.no { border-color: var(--no); background: var(--no-pale) }
.tile.no strong { color: var(--no) }
.tile.unknown { border-color: var(--unknown); background: var(--unknown-pale) }
.tile.unknown strong { color: var(--unknown) }
.tile.none strong { color: var(--soft) }
.mark { display: inline-block; border-radius: 5px; padding: 0 9px; font-weight: 600;
  white-space: nowrap }
.mark.yes { background: var(--yes-pale); color: var(--yes) }
.mark.no { background: var(--no-pale); color: var(--no); outline: 1px solid var(--no) }
.mark.unknown { background: var(--unknown-pale); color: var(--unknown);
  outline: 1px dashed var(--unknown) }
.strip { display: flex; flex-wrap: wrap; gap: 1px; align-items: center; margin: 0 0 8px }
.strip strong { min-width: 7em; font-weight: 600 }
.spot { width: 9px; height: 18px; font-size: 0; print-color-adjust: exact; -webkit-print-color-adjust: exact }
.spot.held { background: #8fb39b }
.spot.fails { background: repeating-linear-gradient(135deg, #b3261e 0 2px, #fbeae8 2px 5px) }
.spot.open { background: radial-gradient(#2b6cb0 0 2px, #e8f0f8 2.5px) }
";

/// Drawings, and the lines to sign.
pub const DRAWINGS: &[u8] = b"
.patterns { position: absolute; width: 0; height: 0; overflow: hidden }
.drawing { margin: 10px 0 18px; border: 1px solid var(--line); border-radius: 8px; padding: 8px;
  overflow-x: auto; print-color-adjust: exact; -webkit-print-color-adjust: exact }
.drawing svg { display: block; width: 100%; min-width: 640px; height: auto }
.lines { display: flex; flex-wrap: wrap; gap: 24px 32px; margin-top: 48px }
.lines div { flex: 1 1 200px; border-top: 1px solid var(--ink); padding-top: 4px;
  color: var(--soft); font-size: 13px }
svg text { font: 12px sans-serif; fill: #1b2733 }
";

/// A narrow window: a row of a table becomes a block, and its cells say what they are.
pub const NARROW: &[u8] = b"
@media screen and (max-width: 720px) {
  main { padding: 20px 14px 48px }
  .tile { flex: 1 1 140px; min-width: 0 }
  thead { position: absolute; width: 1px; height: 1px; overflow: hidden; clip-path: inset(50%) }
  table, tbody, tr, th, td { display: block; width: auto }
  tr { border-bottom: 1px solid var(--line); padding: 8px 0 }
  th, td { border: 0; padding: 1px 0 }
  .number, .state, td { white-space: normal; text-align: left }
  .matrix td:nth-child(3n + 1) { min-width: 0 }
  .matrix .state, td.bar, .by { padding-left: 0 }
  .told { min-width: 0 }
  .label { display: inline-block; min-width: 8.5em; color: var(--soft); font-size: 13px }
  .label:empty { display: none }
  .lost { display: inline; margin-left: 8px }
  td.bar { width: auto; padding-top: 4px }
}
";

/// On paper.
pub const PRINT: &[u8] = b"
@page { size: A4; margin: 16mm 14mm;
  @bottom-right { content: 'sheet ' counter(page) ' of ' counter(pages); font: 8pt sans-serif } }
@media print {
  body { font-size: 9.5pt }
  h1 { font-size: 16pt }
  h2 { margin: 16px 0 6px; padding-top: 10px; font-size: 12pt }
  .tiles { gap: 6px; margin: 10px 0 8px }
  .tile { padding: 4px 9px; min-width: 0; max-width: 190px; font-size: 8pt }
  .tile strong { font-size: 14pt }
  .lines { margin-top: 30px }
  main { max-width: none; padding: 0 }
  nav { display: none }
  a { color: inherit; text-decoration: none }
  h2, h3, .small { break-after: avoid }
  tr, .small, .tiles, .strip, .lines, .drawing, .why, #signature { break-inside: avoid }
  pre { max-height: none; overflow: visible; white-space: pre-wrap; overflow-wrap: anywhere }
  details::details-content { content-visibility: visible; display: block; height: auto }
  #failing section, #faults section { break-inside: avoid }
  .wide, .drawing { overflow: visible }
  .drawing { border: 0; padding: 0 }
  .drawing svg { min-width: 0 }
  th, td { padding: 3px 8px 3px 0 }
  thead th { font-size: 8pt }
  .matrix .state, .matrix th[scope=colgroup],
    .matrix thead tr + tr th:nth-child(3n + 1) { padding-left: 8px }
  .matrix:has(th[scope=colgroup]:nth-child(5)) { font-size: 7.5pt }
  .matrix:has(th[scope=colgroup]:nth-child(5)) td:nth-child(3n + 1) { min-width: 5.6em }
  .matrix:has(th[scope=colgroup]:nth-child(5)) .mark { white-space: normal; padding: 0 5px }
  .times code { font-size: 7.5pt }
  td.bar { width: 24% }
  .mark, .tile, td.bar svg { print-color-adjust: exact; -webkit-print-color-adjust: exact }
  code, pre { font-size: 8.5pt }
  .hash code { font-size: 7.5pt }
}
";
