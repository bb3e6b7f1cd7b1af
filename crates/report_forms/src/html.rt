//! A page of HTML that needs nothing else.

ghost use Rattle.std.specs.Prelude.{◌≡◌, ◌++◌, IfOk, OnOk, map};
ghost use Rattle.report_forms.specs.Findings.{context_of, finding_view, message_in};
ghost use Rattle.report_forms.specs.HtmlForm.{
  html_begin,
  html_cell,
  html_share,
  html_bar,
  html_numbers,
  html_names,
  html_rule,
  html_total,
  html_of_words,
  html_verdict,
  html_names_of,
  html_place,
  html_finding,
  html_page,
  html_refusal,
};

use crate::beside::Beside;
use crate::escapes::put_xml;
use crate::faults::{FaultPart, faults_by};
use crate::finding::{Finding, message_of};
use crate::pieces::{put, put_number};
use crate::rows::{Counts, word_at};
use explain_faults::Fault;
use std::alloc::{AllocError, Global};

/// What stands before the title.
const BEGIN: &str = "<!DOCTYPE html>
<html lang=\"en\"><head><meta charset=\"utf-8\">
<meta name=\"viewport\" content=\"width=device-width, initial-scale=1\">
<meta http-equiv=\"Content-Security-Policy\" content=\"default-src 'none'; style-src 'unsafe-inline'; script-src 'unsafe-inline'\">
<style>
:root { color-scheme: light dark }
body { font: 15px/1.45 system-ui, sans-serif; margin: 2em auto; max-width: 78em; padding: 0 1em }
h1 { font-size: 1.3em; overflow-wrap: anywhere }
table { border-collapse: collapse; width: 100%; margin: 1em 0 }
th, td { text-align: left; vertical-align: top; padding: .25em .6em; border-bottom: 1px solid #8884 }
th { position: sticky; top: 0; background: Canvas }
.number { text-align: right; font-variant-numeric: tabular-nums }
#rules tbody tr { cursor: pointer }
#rules tbody tr:hover, #findings tbody tr:hover { background: #8882 }
.bar { display: flex; width: 12em; height: .8em; margin-top: .3em; background: #8883 }
.bar i { flex: 0 1 0 }
.bar .holds { background: #2a9d5c }
.bar .fails { background: #d03b3b }
.bar .undecided { background: #d9a300 }
td.fails { color: #d03b3b; font-weight: 600 }
td.undecided { color: #b07d00; font-weight: 600 }
.total td { font-weight: 600 }
.script #findings tbody tr { display: none }
.script #findings tbody tr.shown { display: table-row }
#findings code { display: block; white-space: pre-wrap; font-size: .9em }
.script #findings tr:not([open]) code { display: none }
#findings button { border: 0; padding: 0; margin: 0; background: none; color: LinkText; cursor: pointer }
@media print { .script #findings code { display: block !important } #findings button { display: none } }
@media print { .script #findings tbody tr.fits { display: table-row } }
input, select, button { font: inherit; margin-right: .6em }
</style>
<script>document.documentElement.className = 'script'</script>
<title>";

/// What stands between the title and the path.
const HEADING: &str = "</title></head><body>
<h1>Report on ";

/// What stands between the path and the rules.
const RULES: &str = "</h1>
<table id=\"rules\"><thead><tr><th>Rule<th>Message<th class=\"number\">Objects<th class=\"number\">Holds<th class=\"number\">Fails<th class=\"number\">Undecided<th>&nbsp;</tr></thead><tbody>
";

/// What stands between the rules and the findings.
const FINDINGS: &str = "</tbody></table>
<p><input id=\"text\" type=\"search\" placeholder=\"Search\" aria-label=\"Search\"><select id=\"rule\" aria-label=\"Rule\"><option value=\"\">All rules</option></select><select id=\"class\" aria-label=\"Class\"><option value=\"\">All classes</option></select><select id=\"verdict\" aria-label=\"Verdict\"><option value=\"\">All verdicts</option></select><span id=\"count\"></span></p>
<table id=\"findings\"><thead><tr><th>Verdict<th>Rule<th>Object<th>Class<th>Place<th>Message</tr></thead><tbody>
";

/// What stands behind the findings. Of those that fit the filters the script shows the first 500, and more when asked.
const END: &str = "</tbody></table>
<p><button id=\"more\" type=\"button\" hidden></button></p>
<script>
const rows = [...document.querySelectorAll('#findings tbody tr')].map(row => {
  const cells = [...row.cells].map(cell => cell.textContent)
  return { row, cells, words: cells.join(' ').toLowerCase() }
})
const [text, count, more] = ['text', 'count', 'more'].map(id => document.getElementById(id))
for (const { row } of rows) {
  const why = row.querySelector('code')
  if (!why) continue
  const button = document.createElement('button')
  button.textContent = 'why'
  button.onclick = () => button.textContent = row.toggleAttribute('open') ? 'hide' : 'why'
  why.before(button)
}
const filters = [['verdict', 0], ['rule', 1], ['class', 3]].map(([id, cell]) => [document.getElementById(id), cell])
for (const [filter, cell] of filters)
  for (const value of new Set(rows.map(({ cells }) => cells[cell]))) if (value) filter.add(new Option(value, value))
const step = 500
let most = step
function show() {
  let fitting = 0
  const wanted = text.value.toLowerCase()
  for (const { row, cells, words } of rows) {
    const fits = filters.every(([filter, cell]) => !filter.value || cells[cell] === filter.value) && words.includes(wanted)
    if (fits) fitting += 1
    row.className = fits ? (fitting > most ? 'fits' : 'fits shown') : ''
  }
  count.textContent = `${fitting} of ${rows.length} findings`
  more.hidden = fitting <= most
  more.textContent = `Show ${Math.min(step, fitting - most)} more`
}
function begin() {
  most = step
  show()
}
more.onclick = () => {
  most += step
  show()
}
text.oninput = begin
for (const [filter] of filters) filter.onchange = begin
for (const row of document.querySelectorAll('#rules tbody tr'))
  row.onclick = () => {
    filters[1][0].value = row.className ? '' : row.cells[0].textContent
    begin()
  }
show()
</script>
</body></html>
";

/// Puts what stands before the rules.
fn put_begin(out: &mut Vec<u8>, path: &str) -> Result<(), AllocError>
    ensures { OnOk result (out.new.items ≡ out.old.items ++ html_begin path.now) }
{
    put(out, BEGIN)?;
    put_xml(out, path.as_bytes())?;
    put(out, HEADING)?;
    put_xml(out, path.as_bytes())?;
    put(out, RULES)?;
    Ok(())
}

/// Puts a cell that has a number.
fn put_cell(out: &mut Vec<u8>, number: &[u8]) -> Result<(), AllocError>
    ensures { OnOk result (out.new.items ≡ out.old.items ++ html_cell number.now) }
{
    put(out, "<td class=\"number\">")?;
    out.extend_from_slice(number)?;
    Ok(())
}

/// Puts a part of a bar, as wide as a number says.
fn put_share(out: &mut Vec<u8>, name: &str, number: &[u8]) -> Result<(), AllocError>
    ensures { OnOk result (out.new.items ≡ out.old.items ++ html_share name.now number.now) }
{
    put(out, "<i class=\"")?;
    put(out, name)?;
    put(out, "\" style=\"flex-grow:")?;
    out.extend_from_slice(number)?;
    put(out, "\"></i>")
}

/// Puts the bar of a rule.
fn put_bar(out: &mut Vec<u8>, counts: Counts<'_>) -> Result<(), AllocError>
    ensures { OnOk result (out.new.items ≡ out.old.items ++ html_bar counts.entry.holds.now
        counts.entry.fails.now counts.entry.undecided.now) }
{
    put(out, "<td><div class=\"bar\">")?;
    put_share(out, "holds", counts.holds)?;
    put_share(out, "fails", counts.fails)?;
    put_share(out, "undecided", counts.undecided)?;
    put(out, "</div>")?;
    Ok(())
}

/// Puts the counts of a rule.
fn put_numbers(out: &mut Vec<u8>, counts: Counts<'_>) -> Result<(), AllocError>
    ensures { OnOk result (out.new.items ≡ out.old.items ++ html_numbers
        counts.entry.objects.now counts.entry.holds.now counts.entry.fails.now
        counts.entry.undecided.now) }
{
    put_cell(out, counts.objects)?;
    put_cell(out, counts.holds)?;
    put_cell(out, counts.fails)?;
    put_cell(out, counts.undecided)?;
    Ok(())
}

/// Puts the name and the message of a rule.
fn put_names(out: &mut Vec<u8>, name: &[u8], message: &str) -> Result<(), AllocError>
    ensures { OnOk result (out.new.items ≡ out.old.items ++ html_names name.now message.now) }
{
    put(out, "<tr><td>")?;
    out.extend_from_slice(name)?;
    put(out, "<td>")?;
    put_xml(out, message.as_bytes())
}

/// Puts the row of a rule.
fn put_rule(
    out: &mut Vec<u8>,
    beside: Beside<'_, '_>,
    name: &[u8],
    counts: Counts<'_>,
) -> Result<(), AllocError>
    ensures { OnOk result (out.new.items ≡ out.old.items ++ html_rule name.now
        (message_in beside.entry.messages.now name.now) counts.entry.objects.now
        counts.entry.holds.now counts.entry.fails.now counts.entry.undecided.now) }
{
    put_names(out, name, message_of(beside.messages, name))?;
    put_numbers(out, counts)?;
    put_bar(out, counts)?;
    put(out, "\n")?;
    Ok(())
}

/// Puts the row of all rules.
fn put_total(out: &mut Vec<u8>, fails: &[u8], undecided: &[u8]) -> Result<(), AllocError>
    ensures { OnOk result (out.new.items ≡
        out.old.items ++ html_total fails.now undecided.now) }
{
    put(out, "<tr class=\"total\"><td>total<td><td><td>")?;
    put_cell(out, fails)?;
    put_cell(out, undecided)?;
    put(out, "<td>\n")?;
    Ok(())
}

/// Puts what a line that isn't an object's gives.
pub(crate) fn put_html_words(
    out: &mut Vec<u8>,
    beside: Beside<'_, '_>,
    words: &[&[u8]],
) -> Result<(), AllocError>
    ensures { OnOk result (out.new.items ≡ out.old.items ++
        html_of_words (context_of beside.entry) (map (λ w. w.now) words.now)) }
{
    match words.len() {
        10 => {
            let name = word_at(words, 1);
            let counts = Counts {
                objects: word_at(words, 3),
                holds: word_at(words, 5),
                fails: word_at(words, 7),
                undecided: word_at(words, 9),
            };
            put_rule(out, beside, name, counts)
        }
        5 => put_total(out, word_at(words, 2), word_at(words, 4)),
        _ => Ok(()),
    }
}

/// Puts the beginning of a finding's row, with its verdict.
fn put_verdict(out: &mut Vec<u8>, verdict: &[u8]) -> Result<(), AllocError>
    ensures { OnOk result (out.new.items ≡ out.old.items ++ html_verdict verdict.now) }
{
    put(out, "<tr><td class=\"")?;
    out.extend_from_slice(verdict)?;
    put(out, "\">")?;
    out.extend_from_slice(verdict)?;
    Ok(())
}

/// Puts the rule, the object and the class of a finding.
fn put_names_of(out: &mut Vec<u8>, finding: Finding<'_, '_, '_>) -> Result<(), AllocError>
    ensures { OnOk result (out.new.items ≡
        out.old.items ++ html_names_of (finding_view finding.entry)) }
{
    put(out, "<td>")?;
    out.extend_from_slice(finding.rule)?;
    put(out, "<td>")?;
    out.extend_from_slice(finding.object)?;
    put(out, "<td>")?;
    put(out, finding.class)?;
    Ok(())
}

/// Puts the place of a finding.
fn put_place(
    alloc: Global,
    out: &mut Vec<u8>,
    finding: Finding<'_, '_, '_>,
) -> Result<(), AllocError>
    ensures { OnOk result (out.new.items ≡
        out.old.items ++ html_place (finding_view finding.entry)) }
{
    put(out, "<td>")?;
    put_number(alloc, out, finding.line)?;
    put(out, ":")?;
    put_number(alloc, out, finding.column)
}

/// Puts the row of a finding.
pub(crate) fn put_html_finding(
    alloc: Global,
    out: &mut Vec<u8>,
    finding: Finding<'_, '_, '_>,
) -> Result<(), AllocError>
    ensures { OnOk result (out.new.items ≡
        out.old.items ++ html_finding (finding_view finding.entry)) }
{
    put_verdict(out, finding.verdict)?;
    put_names_of(out, finding)?;
    put_place(alloc, out, finding)?;
    put(out, "<td>")?;
    put_xml(out, finding.message.as_bytes())?;
    put(out, "\n")?;
    Ok(())
}

/// The page of the rows of rules and of findings. Where memory runs out there is none.
pub(crate) fn html_page(
    alloc: Global,
    path: &str,
    rules: &[u8],
    findings: &[u8],
) -> Result<Vec<u8>, AllocError>
    ensures { IfOk result (λ v. v.items ≡ html_page path.now rules.now findings.now) }
{
    let mut out = Vec::new(alloc);
    put_begin(&mut out, path)?;
    out.extend_from_slice(rules)?;
    put(&mut out, FINDINGS)?;
    out.extend_from_slice(findings)?;
    put(&mut out, END)?;
    Ok(out)
}

/// The page of a refusal, whose line stands in the place of the rules, and its faults in that of the findings.
pub(crate) fn html_refusal(
    alloc: Global,
    path: &str,
    faults: &[Fault],
    line: &[u8],
) -> Result<Vec<u8>, AllocError>
    ensures { IfOk result (λ v. v.items ≡ html_refusal path.now faults.now line.now) }
{
    let faults = faults_by(alloc, FaultPart::Html, faults)?;
    let mut out = Vec::new(alloc);
    put_begin(&mut out, path)?;
    put(&mut out, "<tr class=\"total\"><td>")?;
    out.extend_from_slice(line)?;
    put(&mut out, "\n")?;
    put(&mut out, FINDINGS)?;
    out.extend_from_slice(&faults)?;
    put(&mut out, END)?;
    Ok(out)
}
