// What is written out, so that the output always has room for one step's text.
ghost use Rattle.std.specs.Prelude.{◌+◌, ◌≤◌, length, IfOk};
ghost use Rattle.report.specs.Most.{step_most};

use std::io;

// Writes the text out where fewer bytes are left than a step can put; answers the next place.
pub fn make_room(rt: &impl Print, output: &[u8], end: usize) -> io::Result<usize>
    requires { (end ≤ length output.now) × (step_most ≤ length output.now) }
    ensures { IfOk result (λ at. at + step_most ≤ length output.now) }
{
    if report::STEP_MOST <= output.len() - end {
        return Ok(end);
    }
    rt.write_all(&output[..end])?;
    Ok(0)
}
