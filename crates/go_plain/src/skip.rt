// How a chain of entries is followed without a look at those behind a mark.
ghost use Rattle.std.specs.Prelude.{◌≡◌, ◌≤◌, ◌-◌, ◌==◌, nat_le, if◌then◌else◌, get_or, length};
ghost use Rattle.go_plain.specs.Skips.{no_skip};

/// The way from an entry past all entries behind a mark.
#[derive(Clone, Copy)]
pub struct Skip {
    // A number of first entries.
    pub mark: u32,
    // The number of the latest of them that leaves the same vertex, counted from 1, and 0 where none does.
    pub latest: u32,
}

impl Skip {
    // The way from a new entry past those behind a mark, where the latest one so far of its vertex has this number.
    pub fn past(mark: u32, latest: u32, skips: &[Skip]) -> Skip
        requires { latest ≤ length skips.now }
        ensures mark { result.mark ≡ mark }
        ensures latest { result.latest ≡ (if mark == 0 then 0 else (if nat_le latest mark then latest else (get_or skips.now (latest - 1) no_skip).latest)) }
    {
        let latest = if mark == 0 {
            0
        } else if latest <= mark {
            latest
        } else {
            skips[latest as usize - 1].latest
        };
        Skip { mark, latest }
    }
}
