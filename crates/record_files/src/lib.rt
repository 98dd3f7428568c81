// Record files by name: what the program prints of two of them.
#![tactic(auto)]

ghost use Rattle.std.specs.Prelude.{◌≡◌, ◌≤◌, ℕ, List, length, IfOk, IfSome, Option};
ghost use Rattle.io.specs.Counts.{IsPrefixLen};
ghost use Rattle.definitions.specs.Records.{program_text};
ghost use Rattle.curve_text.specs.Text.{text_bytes, fitted};
ghost use Rattle.records.specs.Answers.{file_read};
ghost use Rattle.record_files.specs.Answers.{bytes_read, IsFilledFrom, IsOfOpened};

pub use curve_text::TEXT_BYTES;
use std::io::{Error, Read};
use std::rt::Files;
use std::{fs, str};

// Rooms longer than the files may be, so that one that is too long is seen as such.
pub const POINTS_ROOM: usize = 65536;

pub const EDGES_ROOM: usize = 4096;

// ---- reading

// Where files are read by their names.
pub trait RecordFiles {
    // What a file of this name may be read as into this much room: its bytes, or nothing where it can't be read. The same name may be read otherwise
    // the next time.
    ghost may_read: { Self → List ℕ → ℕ → Option (List ℕ) → Type 0 };

    // Reads a file to its end, or until buf is full; answers how many bytes, or nothing where it can't be read.
    fn read_file(&self, name: &[u8], buf: &mut [u8]) -> Option<usize>
        ensures count { IfSome result (λ n. n ≤ length buf.new) }
        ensures answer { may_read self.now name.now (length buf.new) (bytes_read result buf.new) };
}

// Of the system's files a contract of `std` says neither which bytes they hold nor why one is not opened or read.
impl<R: Files> RecordFiles for R {
    ghost may_read = { λ _ _ room answer. IsOfOpened R.File.remaining room answer };

    // A name that is no text is no path of `std`.
    fn read_file(&self, name: &[u8], buf: &mut [u8]) -> Option<usize> {
        let path = str::from_utf8(name).ok()?;
        let mut file = fs::open(self, path).ok()?;
        read_all(&mut file, buf).ok()
    }
}

// Reads to the file's end, or until buf is full; answers how many bytes.
fn read_all<F: Read>(file: &mut F, buf: &mut [u8]) -> Result<usize, Error>
    ensures count { IfOk result (λ n. IsPrefixLen n buf.new) }
    ensures bytes { IfOk result (λ n. IsFilledFrom (F.remaining file.old) n buf.new) }
{
    let mut n = 0;
    // A `while`: each read takes as many bytes as it gives, which no `for` counts.
    while n < buf.len() {
        let more = file.read(&mut buf[n..])?;
        if more == 0 {
            break;
        }
        n += more;
    }
    Ok(n)
}

// ---- what the program prints

// How many bytes were read of each file, nothing where it could not be read, and the text's length.
#[derive(Clone, Copy)]
pub struct FilesText {
    pub points_read: Option<usize>,
    pub edges_read: Option<usize>,
    pub text_length: usize,
}

// The bytes that were read into a buffer.
fn front(buf: &[u8], n: Option<usize>) -> Option<&[u8]>
    requires { IfSome n (λ n. n ≤ length buf.now) }
    ensures { file_read result ≡ bytes_read n buf.now }
{
    match n {
        Some(n) => Some(&buf[..n]),
        None => None,
    }
}

// What the program prints of two files, by their names, written to out if it has room for it: the text of what is read into the two buffers.
pub fn text_of_files<F: RecordFiles>(
    files: &F,
    points_name: &[u8],
    edges_name: &[u8],
    points: &mut [u8; POINTS_ROOM],
    edges: &mut [u8; EDGES_ROOM],
    out: &mut [u8],
) -> FilesText
    ensures points_count { IfSome result.points_read (λ n. n ≤ length points.new) }
    ensures edges_count { IfSome result.edges_read (λ n. n ≤ length edges.new) }
    ensures points_answer { F.may_read files.now points_name.now (length points.new) (bytes_read result.points_read points.new) }
    ensures edges_answer { F.may_read files.now edges_name.now (length edges.new) (bytes_read result.edges_read edges.new) }
    ensures text_length { result.text_length ≡ length (program_text (bytes_read result.points_read points.new) (bytes_read result.edges_read edges.new)) }
    ensures text_most { result.text_length ≤ text_bytes }
    ensures out_after { out.new ≡ fitted (program_text (bytes_read result.points_read points.new) (bytes_read result.edges_read edges.new)) out.old }
{
    let points_read = files.read_file(points_name, points);
    let edges_read = files.read_file(edges_name, edges);
    let points_bytes = front(points, points_read);
    let edges_bytes = front(edges, edges_read);
    let text_length = records::program_text(points_bytes, edges_bytes, out);
    FilesText {
        points_read,
        edges_read,
        text_length,
    }
}
