// From the text of a configuration to the configuration.
ghost use Rattle.std.specs.Prelude.{◌≡◌, ◌≢◌, None, IfOk, IfErr, option_map};
ghost use Rattle.job_config.specs.Bounds.{IsBounded};
ghost use Rattle.container_texts.specs.Statuses.{status_of};
ghost use Rattle.samza_container.specs.Causes.{IsOfFolder};
ghost use Rattle.samza_container.specs.ConfigText.{IsAnswer, said_by};
ghost use Rattle.samza_container.specs.Configured.{configured, if_built};
ghost use Rattle.samza_container.specs.NotBuilt.{first_not_built};

use crate::not_built::first_not_built;
use container_texts::RunFault;
use job_config::{ConfigFault, JobConfig};
use props_text::{PropsFault, read};
use std::alloc::Global;

/// The most bytes of a configuration's text.
const TEXT_LIMIT: usize = 1_048_576;

/// The configuration that a text says. A longer text than may be is refused before it is read.
#[tactic(auto, unfolding(crate::specs::ConfigText::said_by))]
pub(crate) fn read_config(alloc: Global, text: &[u8]) -> Result<JobConfig, RunFault>
    ensures says { IsAnswer result (said_by text.now) }
    ensures bounded { IfOk result IsBounded }
    ensures kind { IfErr result (λ e. IsOfFolder e × (status_of e ≢ 4)) }
{
    if text.len() > TEXT_LIMIT {
        return Err(RunFault::TextLimit);
    }
    let pairs = match read(alloc, text) {
        Ok(pairs) => pairs,
        Err(PropsFault::BadEscape { line }) => return Err(RunFault::BadEscape { line }),
        Err(PropsFault::NoMemory) => return Err(RunFault::NoMemory),
    };
    match JobConfig::from_pairs(alloc, &pairs) {
        Ok(config) => Ok(config),
        Err(ConfigFault::Bad { key, what }) => Err(RunFault::BadKey { key, what }),
        Err(ConfigFault::NoMemory) => Err(RunFault::NoMemory),
    }
}

/// The configuration that a text says, if all that it asks for is built.
fn built_config(alloc: Global, text: &[u8]) -> Result<JobConfig, RunFault>
    ensures says { IsAnswer result (if_built (said_by text.now)) }
    ensures bounded { IfOk result IsBounded }
    ensures built { IfOk result (λ c. first_not_built c ≡ None) }
    ensures kind { IfErr result (λ e. IsOfFolder e × (status_of e ≢ 4)) }
{
    let config = match read_config(alloc, text) {
        Ok(config) => config,
        Err(fault) => return Err(fault),
    };
    match first_not_built(alloc, &config) {
        Ok(None) => Ok(config),
        Ok(Some(key)) => Err(RunFault::NotBuilt { key }),
        Err(_) => Err(RunFault::NoMemory),
    }
}

/// The configuration of a folder with this text, if all that it asks for is built.
pub(crate) fn folder_config(alloc: Global, text: Option<Vec<u8>>) -> Result<JobConfig, RunFault>
    ensures says { IsAnswer result (configured (option_map (λ v. v.items) text)) }
    ensures bounded { IfOk result IsBounded }
    ensures built { IfOk result (λ c. first_not_built c ≡ None) }
    ensures kind { IfErr result (λ e. IsOfFolder e × (status_of e ≢ 4)) }
{
    match text {
        None => Err(RunFault::NoText),
        Some(text) => built_config(alloc, text.as_slice()),
    }
}
