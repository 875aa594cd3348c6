// The token that may be resent.
ghost use Rattle.std.specs.Prelude.{◌≡◌, ◌≤◌, length};
ghost use Rattle.frames.specs.Layout.{longest_token};
ghost use Rattle.record.specs.Turn.{remembered};
ghost use Rattle.visit.specs.Output.{followed_by};

use record::Turn;

// Its bytes to the front. Ruled out: another token's; a byte past it changed.
pub fn put_remembered(t: Turn, frames: &mut [u8])
    requires { (t.size ≤ longest_token) × (longest_token ≤ length frames.old) }
    ensures { frames.new ≡ followed_by (remembered t) frames.old }
{
    let token = t.token;
    words::put_slice(frames, 0, &token[0..t.size as usize]);
}
