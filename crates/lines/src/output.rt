// Numbers of an answer, to standard output: decimal, parted by spaces, each answer a line. What isn't written out yet stands in a buffer.
ghost use Rattle.std.specs.Prelude.{◌≡◌, ◌<◌};

// The program's standard output. The buffer's first `at` bytes aren't written out yet; any number is taken, and past the buffer there is nothing to write.
#[derive(Drop)]
pub struct Output<'a, R> {
    rt: &'a R,
    pub bytes: [u8; 65536],
    pub at: usize,
}

// Writes the first `at` of these bytes out, if there are so many. What can't be written is lost.
pub fn write_first<R: Print>(rt: &R, bytes: &[u8], at: usize) {
    if at <= bytes.len() {
        let _ = rt.write_all(&bytes[..at]);
    }
}

impl<'a, R: Print> Output<'a, R> {
    // Nothing is written yet.
    pub fn new(rt: &'a R) -> Output<'a, R> {
        Output {
            rt,
            bytes: [0; 65536],
            at: 0,
        }
    }

    // Writes the buffer out. What can't be written is lost.
    pub fn flush(&mut self)
        ensures { self.new.at ≡ 0 }
    {
        write_first(self.rt, &self.bytes, self.at);
        self.at = 0;
    }

    // Where there may be no room for a number and a space the buffer is written out.
    fn make_room(&mut self)
        ensures { self.new.at < 65500 }
    {
        if self.at >= 65500 {
            self.flush();
        }
    }

    // A number and a space.
    pub fn put(&mut self, n: u64) {
        self.make_room();
        let behind = numbers::write(&mut self.bytes, self.at, n);
        self.bytes[behind] = b' ';
        self.at = behind + 1;
    }

    // Each number of a list.
    pub fn put_all<N: Copy + Into<u64>>(&mut self, list: &[N]) {
        for n in list {
            self.put((*n).into());
        }
    }

    // The answer's end: the space behind its last number becomes a line end.
    pub fn end_line(&mut self) {
        if 0 < self.at && self.at <= self.bytes.len() {
            self.bytes[self.at - 1] = b'\n';
        }
    }
}
