ghost use Rattle.std.specs.Prelude.{◌≢◌, Ok, Err, IfOk, IfErr};
ghost use Rattle.bully.specs.Wanted.{ReadsAs};

use crate::telling::Stop;
use bully_config::{Config, ConfigFault};
use std::alloc::Global;
use std::io::ErrorKind;
use std::rt::Files;
use std::{fs, str};

/// The bytes of the file at the path. Refused as `Read` where it can't be read, and for want of memory.
pub fn bytes_at<H: Files + AllocGlobal>(rt: &H, path: &str) -> Result<Vec<u8>, Stop> {
    match fs::read(rt, path) {
        Ok(bytes) => Ok(bytes),
        Err(error) if error.kind() == ErrorKind::OutOfMemory => Err(Stop::OutOfMemory),
        Err(_) => Err(Stop::Read),
    }
}

/// Reads the configuration of a file's bytes. Bytes that are no UTF-8 text are refused as `Toml`.
pub fn config_of(alloc: Global, bytes: &[u8]) -> Result<Config, ConfigFault>
    ensures ok { IfOk result (λ config. ReadsAs bytes.now (Ok config)) }
    ensures fault { IfErr result (λ fault. fault ≢ ConfigFault.OutOfMemory → ReadsAs bytes.now (Err fault)) }
{
    match str::from_utf8(bytes) {
        Ok(text) => Config::read(alloc, text),
        Err(_) => Err(ConfigFault::Toml),
    }
}
