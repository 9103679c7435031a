//! Named bytes in memory, and how far one of them was read.

ghost use Rattle.std.specs.Prelude.{◌≡◌, ◌<◌, ◌≤◌, ◌+◌, ◌^◌, ◌++◌, [], length, min, take};
ghost use Rattle.gr_desk.specs.Files.{bytes_at, file_number, left_of};

/// The number of the first file of that name.
pub(crate) fn find_file(files: &[(String, Vec<u8>)], name: &str) -> Option<usize>
    ensures { result ≡ file_number files.now name.now }
{
    files.iter().position(|f| f.0.as_str() == name)
}

/// The file that is read, and how many of its bytes were.
#[derive(Clone, Copy)]
pub struct Reading {
    pub(crate) file: Option<usize>,
    pub(crate) at: usize,
}

/// The bytes of the file of that number; none where there is no such file.
fn bytes_of(files: &[(String, Vec<u8>)], file: usize) -> &[u8]
    ensures { result.now ≡ bytes_at files.now file }
{
    match files.get(file) {
        None => &[],
        Some(file) => file.1.as_slice(),
    }
}

impl Reading {
    /// No file yet: nothing is left.
    pub(crate) fn none() -> Reading
        ensures file { result.file ≡ None }
        ensures at { result.at ≡ 0 }
    {
        Reading { file: None, at: 0 }
    }

    fn left<'a>(&self, files: &'a [(String, Vec<u8>)]) -> &'a [u8]
        ensures left { result.now ≡ left_of files.now self.now }
        ensures room { self.now.at + length result.now < 2 ^ 64 }
    {
        let at = self.at;
        match self.file {
            None => &[],
            Some(file) => {
                let bytes = bytes_of(files, file);
                &bytes[at.min(bytes.len())..]
            }
        }
    }

    /// Moves at most `most` bytes of what is left into the front of `buf`, and answers how many bytes that were.
    pub(crate) fn read(&mut self, files: &[(String, Vec<u8>)], buf: &mut [u8], most: usize) -> usize
        requires { most ≤ length buf.old }
        ensures bound { result ≤ length buf.new }
        ensures moved { result ≡ min (length (left_of files.now self.old)) most }
        ensures taken { left_of files.now self.old ≡ take result buf.new ++ left_of files.now self.new }
        ensures end { result ≡ 0 → 0 < most → left_of files.now self.new ≡ [] }
    {
        let left = self.left(files);
        let count = left.len().min(most);
        buf[..count].copy_from_slice(&left[..count]);
        self.at += count;
        count
    }
}
