// For tests/oracle: the call of crate `compare_player` as a static library.
#![tactic(auto)]

ghost use Rattle.std.specs.Prelude.{◌≡◌, min, length};
ghost use Rattle.compare_files.specs.Files.{filled};
ghost use Rattle.compare_player.specs.Calls.{word_after};

// 80 words of the fresh player, then 80 after each call, as many as there are places for.
#[unsafe(no_mangle)]
pub extern "C" fn compare_player(file: &[u8], calls: &[u8], answer: &mut [u32])
    ensures { answer.new ≡ filled (word_after file.now calls.now) answer.old (min (length answer.old) 1000000) }
{
    compare_player::compare_player(file, calls, answer);
}
