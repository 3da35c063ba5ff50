//! What a line file and a scripts file say.
ghost use Rattle.call_files.specs.Study.{ReadsStudy};

use crate::stop::Stop;
use call_answer::Study;
use file_line::read_line;
use file_tables::script::read_scripts;
use net_compile::compile;
use std::alloc::Global;

/// Reads the line file and then the scripts file, and compiles the line.
pub fn read_study(alloc: Global, line: &[u8], scripts: &[u8]) -> Result<Study, Stop>
    ensures { ReadsStudy line.now scripts.now result }
{
    let line = read_line(alloc, line)?;
    let scripts = read_scripts(alloc, &line, scripts)?;
    let net = compile(alloc, &line)?;
    Ok(Study { line, scripts, net })
}
