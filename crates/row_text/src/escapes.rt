use std::alloc::{AllocError, Global};

// What is read of an escape.
#[derive(Clone, Copy)]
enum Stage {
    Plain,
    Escape,
    High,
    Low(u8),
    Count(usize),
}

// What a text stands for so far, and where what is repeated begins and how often it stands.
#[derive(Drop)]
struct Unescaping {
    bytes: Vec<u8>,
    repeated: Vec<(usize, usize)>,
}

impl Unescaping {
    // What was written since the last repetition began, as often as that says.
    fn repeat(&mut self, alloc: Global) -> Result<bool, AllocError> {
        let Some((start, count)) = self.repeated.pop() else {
            return Ok(false);
        };
        let Some(piece) = self.bytes.get(start..) else {
            return Ok(false);
        };
        let piece = piece.to_vec(alloc)?;
        self.bytes.truncate(start);
        for _ in 0..count {
            self.bytes.extend_from_slice(&piece)?;
        }
        Ok(true)
    }

    // The stage behind this byte; none where no escape has it.
    fn step(&mut self, alloc: Global, stage: Stage, byte: u8) -> Result<Option<Stage>, AllocError> {
        match (stage, byte) {
            (Stage::Plain, b'\\') => Ok(Some(Stage::Escape)),
            (Stage::Plain, _) => self.put(byte),
            (Stage::Escape, b'n') => self.put(b'\n'),
            (Stage::Escape, b'r') => self.put(b'\r'),
            (Stage::Escape, b't') => self.put(b'\t'),
            (Stage::Escape, b'\\') => self.put(b'\\'),
            (Stage::Escape, b'x') => Ok(Some(Stage::High)),
            (Stage::Escape, b'*') => Ok(Some(Stage::Count(0))),
            (Stage::Escape, b'}') => Ok(self.repeat(alloc)?.then_some(Stage::Plain)),
            (Stage::High, _) => Ok(digit(byte).map(Stage::Low)),
            (Stage::Low(high), _) => match digit(byte) {
                Some(low) => self.put((high << 4) | low),
                None => Ok(None),
            },
            (Stage::Count(count), b'{') => {
                self.repeated.push((self.bytes.len(), count))?;
                Ok(Some(Stage::Plain))
            }
            (Stage::Count(count), b'0'..=b'9') if count < 10_000_000 => {
                Ok(Some(Stage::Count(count * 10 + usize::from(byte - b'0'))))
            }
            _ => Ok(None),
        }
    }

    fn put(&mut self, byte: u8) -> Result<Option<Stage>, AllocError> {
        self.bytes.push(byte)?;
        Ok(Some(Stage::Plain))
    }
}

// The value of a hexadecimal digit.
fn digit(byte: u8) -> Option<u8> {
    match byte {
        b'0'..=b'9' => Some(byte - b'0'),
        b'a'..=b'f' => Some(byte - b'a' + 10),
        _ => None,
    }
}

/// The bytes that a text stands for: `\n`, `\r`, `\t`, `\\`, `\xHH`, and `\*N{TEXT\}` for a text N times; none where
/// another escape stands in it, or one is not ended.
pub fn unescaped(alloc: Global, text: &str) -> Result<Option<Vec<u8>>, AllocError> {
    let mut read = Unescaping {
        bytes: Vec::new(alloc),
        repeated: Vec::new(alloc),
    };
    let mut stage = Stage::Plain;
    for byte in text.as_bytes() {
        let Some(next) = read.step(alloc, stage, *byte)? else {
            return Ok(None);
        };
        stage = next;
    }
    Ok((matches!(stage, Stage::Plain) && read.repeated.is_empty()).then_some(read.bytes))
}
