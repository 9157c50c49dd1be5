// Doing a step many times.

// How often a step went, of so many times.
pub(crate) fn times_done<F: Fn() -> bool>(times: u32, step: F) -> u32
    requires { F.IsAlwaysCallable step }
{
    let mut done: u32 = 0;
    for _ in 0..times {
        if step() {
            done = done.wrapping_add(1);
        }
    }
    done
}
