// The model behind the server, as a configuration says.
ghost use Rattle.std.specs.Prelude.{◌≡◌, IfOk, string_bytes};
ghost use Rattle.block_server.specs.InitialServer.{IsReadyFor};
ghost use Rattle.configuration.specs.Rules.{LacksEveryFault, IsTrimWord};
ghost use Rattle.device_model.specs.ModelState.{device_at};
ghost use Rattle.play.specs.PlayedScript.{IsNewModelOfImage, IsNewModelWithDisks, trim_config_word};

use ata_types::NoMemory;
use configuration::Config;
use device_model::{ALL_PORTS, Disks, Model, ModelConfig, Trim};
use sector_store::SectorStore;
use std::alloc::Global;

/// The promise on trims that a configuration's word names.
fn trim_of(word: &str) -> Trim
    requires { IsTrimWord word.now }
    ensures { trim_config_word result ≡ word.now }
{
    match word {
        "full" => Trim::Full,
        "weak" => Trim::Weak,
        _ => Trim::Without,
    }
}

/// A new modelled adapter as the configuration says. The image is disk 0 of port 0, which is in it, and the blank disk
/// is disk 1, which can be put in for it.
#[inline(never)]
pub fn new_model<S: SectorStore>(
    alloc: Global,
    config: &Config,
    image: S,
    blank: S,
) -> Result<Model<S>, NoMemory>
    requires { LacksEveryFault config.now }
    ensures is_ready_for_config { IfOk result (λ m. IsReadyFor config.now (device_at S.size S.told m)) }
    ensures is_model { IfOk result (IsNewModelOfImage S.size S.told config.now image blank) }
{
    new_model_of_disks(alloc, config, Disks::of_port_0(image, blank))
}

/// A new modelled adapter as the configuration says, with these disks.
#[inline(never)]
pub fn new_model_of_disks<S: SectorStore>(
    alloc: Global,
    config: &Config,
    disks: Disks<S>,
) -> Result<Model<S>, NoMemory>
    requires { LacksEveryFault config.now }
    ensures is_ready_for_config { IfOk result (λ m. IsReadyFor config.now (device_at S.size S.told m)) }
    ensures is_model { IfOk result (IsNewModelWithDisks S.size S.told config.now disks) }
{
    let settings = ModelConfig {
        frames: config.frames as u16,
        slots: config.slots as u8,
        ncq: config.ncq,
        depth: config.depth as u8,
        trim: trim_of(config.trim.as_str()),
        cache: config.cache,
    };
    Model::with_disks(alloc, settings, ALL_PORTS, disks)
}
