//! A file that is a device.

ghost use Rattle.std.specs.Prelude.{◌≡◌};

use std::fs::File;
use std::io;
use std::marker::Model;

/// A file as a device: it has as many octets as the file had when it was looked at.
#[derive(Drop)]
pub struct DeviceFile {
    file: File,
    size: u64,
}

impl Model for DeviceFile {
    ghost use Rattle.ground_io.specs.InMemory.{DeviceFileState};

    ghost Value = { DeviceFileState };

    ghost view = { λ device. record { bytes = device.size } };
}

impl DeviceFile {
    /// The file, with its size.
    pub fn new(file: File) -> io::Result<DeviceFile> {
        let size = file.metadata()?.len();
        Ok(DeviceFile { file, size })
    }

    /// The file, and how many octets it has as a device.
    pub fn into_parts(self) -> (File, u64)
        ensures bytes { result.1 ≡ self.bytes }
    {
        (self.file, self.size)
    }
}
