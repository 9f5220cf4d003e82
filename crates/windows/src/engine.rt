// The engines: ways to write a window's bases.
ghost use Rattle.std.specs.Prelude.{◌≡◌, ◌+◌, ◌^◌, ◌≤◌, length};
ghost use Rattle.alphabet.specs.Symbols.{coding};
ghost use Rattle.alphabet.specs.declared.kind.AlphabetType.{AlphabetType};
ghost use Rattle.windows.specs.Window.{window};

// That a window ends by base 2^60 is a clause of each function that writes one: how many bases it has is the length of `out`, which no value beside it can hold.
pub trait Engine: Copy {
    // The kind whose symbols it writes.
    ghost kind: { Self → AlphabetType };

    // The bases from base `start` on, as many as `out` has bytes, of the file of which `bytes` are those from byte `offset` on. They are not lent as one value: a struct
    // of three words would be handed on through memory, and windows of up to ten bases then took 1.1 to 1.25 times as long.
    fn write(self, bytes: &[u8], offset: usize, start: usize, out: &mut [u8])
        requires { start + length out.old ≤ 2 ^ 60 }
        ensures { out.new ≡ window (coding (kind self)) bytes.now offset start (length out.old) };
}
