//! A script that is run: the script, the configuration of the run, and the script's jump table.

ghost use Rattle.std.specs.Prelude.{◌≡◌, IsTrue, IfOk};
ghost use Rattle.pct_model.specs.Formats.{has_timeouts};
ghost use Rattle.pct_model.specs.Run.{is_config};

use pct_io::NoMemory;
use pct_jumps::Jumps;
use pct_model::{Config, Script};
use std::alloc::Global;
use std::marker::Model;

/// A script, the configuration of its run, and its jump table. In a contract it is the script and the configuration.
#[derive(Drop)]
pub struct Program {
    pub script: Script,
    pub config: Config,
    /// The jump table of the script.
    pub jumps: Jumps,
}

impl Model for Program {
    ghost use Rattle.pct_step_context.specs.Programs.{ProgramValue, KeepsJumps};

    ghost Value = { ProgramValue };

    ghost view = { λ p. record { script = p.script; config = p.config } };

    ghost invariant = { λ p. KeepsJumps p.script p.config p.jumps };
}

impl Program {
    /// The program of a script, with a configuration within the limits. `NoMemory` is returned if the jump table does not fit
    /// into memory.
    pub fn new(alloc: Global, script: Script, config: Config) -> Result<Program, NoMemory>
        requires { IsTrue (is_config config) }
        ensures { IfOk result (λ program. program ≡ record { script = script; config = config }) }
    {
        let jumps = Jumps::new(alloc, &script)?;
        Ok(Program {
            script,
            config,
            jumps,
        })
    }

    /// Whether the time of a wait may expire in the run.
    pub fn has_timeouts(&self) -> bool
        ensures { result ≡ has_timeouts self.now.config.format }
    {
        self.config.format.has_timeouts()
    }
}
