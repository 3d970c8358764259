// What a configuration sets up.
ghost use Rattle.std.specs.Prelude.{◌≡◌, None, IfOk, map};
ghost use Rattle.job_config.specs.Bounds.{IsBounded};
ghost use Rattle.core_steps.specs.Setups.{IsRunnable};
ghost use Rattle.unit_logs.specs.Standing.{IsSetUp};
ghost use Rattle.unit_opening.specs.Inputs.{input_of};
ghost use Rattle.samza_container.specs.Configured.{input_disk};
ghost use Rattle.samza_container.specs.NotBuilt.{first_not_built};
ghost use Rattle.samza_container.specs.SetUp.{input_setup, setup_of};

use disk_model::DiskName;
use job_config::{InputConfig, JobConfig};
use samza_model::{InputSetup, Items, NoMemory, Plain, Setup, Ssp, TaskName};
use std::alloc::Global;

/// Partition 0 of an input.
fn partition_of(alloc: Global, input: &InputConfig) -> Result<InputSetup, NoMemory>
    ensures { IfOk result (λ i. i ≡ input_setup input.now) }
{
    let system = input.system.copy(alloc)?;
    let stream = input.stream.copy(alloc)?;
    Ok(InputSetup {
        ssp: Ssp {
            system,
            stream,
            partition: 0,
        },
        fallback: input.fallback,
        reset: input.reset,
    })
}

/// Partition 0 of each input.
fn partitions_of(alloc: Global, inputs: &[InputConfig]) -> Result<Items<InputSetup>, NoMemory>
    ensures { IfOk result (λ setups. setups ≡ map input_setup inputs.now) }
{
    let mut setups = Vec::new(alloc);
    for input in inputs {
        setups.push(partition_of(alloc, input)?)?;
    }
    Ok(Items::from_vec(setups))
}

/// The setup of the one task of one container.
fn task_setup(alloc: Global, config: &JobConfig) -> Result<Setup, NoMemory>
    ensures { IfOk result (λ s. s ≡ setup_of config.now) }
{
    let inputs = partitions_of(alloc, config.inputs.as_slice())?;
    let stores = config.stores.copy(alloc)?;
    let outputs = config.outputs.copy(alloc)?;
    Ok(Setup {
        task: TaskName(0),
        inputs,
        stores,
        outputs,
        concurrency: config.concurrency,
        span: 65_536,
        async_commit: config.async_commit,
        window_ms: config.window_ms,
        commit_ms: config.commit_ms,
        timeout_ms: config.timeout_ms,
    })
}

/// The setup of the one task of one container, for a configuration of which all is built. A unit is opened for it and run.
pub(crate) fn setup_of(alloc: Global, config: &JobConfig) -> Result<Setup, NoMemory>
    requires bounded { IsBounded config.now }
    requires built { first_not_built config.now ≡ None }
    ensures setup { IfOk result (λ s. s ≡ setup_of config.now) }
    ensures set_up { IfOk result IsSetUp }
    ensures runnable { IfOk result IsRunnable }
    ensures windowless { IfOk result (λ s. s.window_ms ≡ None) }
{
    task_setup(alloc, config)
}

/// The partition that is the setup's input.
pub(crate) fn input_of(setup: &Setup) -> &Ssp
    requires { IsSetUp setup.now }
    ensures { result.now ≡ (input_of setup.now).ssp }
{
    &setup.inputs.as_slice()[0].ssp
}

/// The name of the disk of a setup's input.
pub(crate) fn input_disk(alloc: Global, setup: &Setup) -> Result<DiskName, NoMemory>
    requires { IsSetUp setup.now }
    ensures { IfOk result (λ n. n ≡ input_disk setup.now) }
{
    let input = input_of(setup);
    let system = input.system.copy(alloc)?;
    let stream = input.stream.copy(alloc)?;
    Ok(DiskName::Stream { system, stream })
}

/// The partition of each input.
pub(crate) fn inputs_of(alloc: Global, setup: &Setup) -> Result<Vec<Ssp>, NoMemory>
    ensures { IfOk result (λ v. v.items ≡ map (λ i. i.ssp) setup.now.inputs) }
{
    let mut inputs = Vec::new(alloc);
    for input in setup.inputs.as_slice() {
        inputs.push(input.ssp.copy(alloc)?)?;
    }
    Ok(inputs)
}
