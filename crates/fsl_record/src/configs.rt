//! Copies a Config.
ghost use Rattle.std.specs.Prelude.{◌≡◌, IfOk};

use crate::Config;
use fsl_text::{List, Memory, Text};
use std::alloc::Global;

fn copied_fields(alloc: Global, fields: &[Text]) -> Result<List<Text>, Memory>
    ensures { IfOk result (λ copies. copies ≡ fields.now) }
{
    let mut copies = Vec::new(alloc);
    for field in fields {
        copies.push(Text::of(alloc, field.bytes())?)?;
    }
    Ok(List::from_vec(copies))
}

impl Config {
    /// Copies the Config into memory of its own. `Memory` is the only error.
    pub fn copied(&self, alloc: Global) -> Result<Config, Memory>
        ensures { IfOk result (λ copy. copy ≡ self.now) }
    {
        let fields = copied_fields(alloc, self.fields.items())?;
        Ok(Config {
            project: self.project,
            server: self.server,
            fields,
        })
    }
}
