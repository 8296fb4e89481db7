//! Looks how far the bytes of blocks spell one sample again and again.
ghost use Rattle.std.specs.Prelude.{◌≡◌, ◌*◌, ◌<◌, ◌≤◌, length, replicate, take};
ghost use Rattle.rice_samples.specs.Parameters.{value_at, value_count, width as width_of};
ghost use Rattle.rice_samples.specs.Spelling.{spellings};
ghost use Rattle.rice_fast.specs.BlocksAhead.{HasBits};

use crate::vectors::LevelLanes;
use rice_samples::Setting;

/// Returns a number of whole blocks at the front of the bytes that spell the sample at this level again and again. More may: it looks at
/// whole vectors, up to the first in which another sample is spelled.
///
/// It is never inlined, so that it takes no registers where no zero blocks are pending.
#[inline(never)]
pub fn repeated_blocks<L: LevelLanes>(setting: &Setting, bytes: &[u8], level: u32) -> usize
    requires bits { HasBits L.fewer L.bits setting.now }
    requires level { level < value_count setting.now }
    ensures len { width_of setting.now * (setting.now.block * result) ≤ length bytes.now }
    ensures spelled { take (width_of setting.now * (setting.now.block * result)) bytes.now ≡
        spellings setting.now (replicate (setting.now.block * result) (value_at setting.now level)) }
{
    let setting = *setting;
    let len = setting.width() as usize * L::COUNT;
    let same = L::splat(level);
    let most = bytes.len() / len;
    let mut rows = 0;
    while rows < most {
        let row = L::levels_in(&setting, &bytes[len * rows..len * rows + len]);
        if !row.xor(same).is_zero() {
            break;
        }
        rows += 1;
    }
    L::COUNT * rows / setting.block() as usize
}
