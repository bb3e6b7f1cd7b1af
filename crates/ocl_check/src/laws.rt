//! A law of rule texts and code files, over the definitions alone.

ghost use Rattle.ocl_check.specs.TextLaws.{CompiledFileIsJudgedAsItsText};

use rule_code::laws::reading_undoes_spelling;

/// Judging a population by the code file that a text is compiled to gives the answer of judging it by the text.
pub fn compiled_file_is_judged_as_its_text()
    ensures { CompiledFileIsJudgedAsItsText }
{
    reading_undoes_spelling();
}
