// For tests/oracle: the call of crate `compare_cut` as a static library.
#![tactic(auto)]

ghost use Rattle.std.specs.Prelude.{◌≡◌, min, length};
ghost use Rattle.compare_files.specs.Files.{filled};
ghost use Rattle.compare_cut.specs.Cuts.{word_after};

// 13 words of the fresh player, then 13 after each call, as many as there are places for.
#[unsafe(no_mangle)]
pub extern "C" fn compare_cut(file: &[u8], calls: &[u8], answer: &mut [u32])
    ensures { answer.new ≡ filled (word_after file.now calls.now) answer.old (min (length answer.old) 137000) }
{
    compare_cut::compare_cut(file, calls, answer);
}
