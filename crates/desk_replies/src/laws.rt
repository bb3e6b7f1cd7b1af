//! Laws of scripts, over the definitions alone.

ghost use Rattle.desk_replies.specs.Alone.{ScriptsAreWorlds, EachJobOfAScriptAlone};

use rule_desk::laws::each_job_from_its_entry;

/// The jobs of a script are what its events make of them, and each event may come where it does.
pub fn scripts_are_worlds()
    ensures { ScriptsAreWorlds }
{}

/// What is replied to a call on a job, is replied by its own calls since its entry alone, whatever comes between them.
pub fn each_job_of_a_script_alone()
    ensures { EachJobOfAScriptAlone }
{
    each_job_from_its_entry();
}
