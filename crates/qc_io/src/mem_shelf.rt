//! A shelf in memory.
ghost use Rattle.std.specs.Prelude.{◌≡◌, ◌≤◌, ◌<◌, ◌↔◌, [], ◌∷◌, ◌++◌, None, Some, true, length, min, take, drop, is_some, unwrap_or, option_map, IsSome, IsErr, OnOk, OnErr, IfOk, ℕ, List, refl};
ghost use Rattle.std.specs.FinMap.{empty, get, insert};
ghost use Rattle.qc_io.specs.Outside.{ReadCause, next_count};
ghost use Rattle.qc_io.specs.Calls.{counted, NextFails};
ghost use Rattle.qc_io.specs.Memory.{files_of, grown, held_view, with_made, Held, held_code};
ghost use Rattle.std.specs.String.{string_bytes};

use crate::failing::Calls;
use crate::rest::Rest;
use crate::shelf::Shelf;
use crate::sink::{Failed, Sink, fault};
use qc_num::OutOfMemory;
use std::alloc::{AllocError, Global};
use std::collections::BTreeMap;
use std::marker::Model;

/// A file that is being made, by its name and its bytes.
#[derive(Drop)]
struct Making {
    name: String,
    bytes: Vec<u8>,
}

impl Model for Making {
    ghost Value = { List ℕ × List ℕ };

    ghost view = { λ making. (string_bytes making.name, making.bytes.items) };
}

impl Making {
    /// Puts a piece behind the bytes.
    fn append(&mut self, piece: &[u8]) -> Result<(), AllocError>
        ensures ok { OnOk result (self.new ≡ (self.old.0, self.old.1 ++ piece.now)) }
        ensures err { OnErr result (self.new ≡ self.old) }
    {
        self.bytes.extend_from_slice(piece)
    }

    /// Puts the file among others, in place of one of the same name.
    fn put_into(self, files: &mut BTreeMap<String, Vec<u8>>) -> Result<(), AllocError>
        ensures ok { OnOk result (files_of files.new ≡ insert (files_of files.old) self.0 self.1) }
        ensures err { OnErr result (files_of files.new ≡ files_of files.old) }
    {
        let Making { name, bytes } = self;
        files.insert(name, bytes)?;
        Ok(())
    }
}

/// A shelf in memory. It tells its files. A growth that is refused inside a call of `Sink` or `Shelf`
/// is a fault.
#[derive(Drop)]
pub struct MemShelf {
    alloc: Global,
    files: BTreeMap<String, Vec<u8>>,
    rest: Option<Rest>,
    making: Option<Making>,
    faults: u64,
    read_faults: u64,
    calls: Calls,
    most: usize,
}

impl Model for MemShelf {
    ghost Value = { Held };

    ghost coded = { held_code };

    ghost view = { λ shelf. record {
      files = files_of shelf.files;
      rest = shelf.rest;
      making = shelf.making;
      faults = shelf.faults;
      read_faults = shelf.read_faults;
      calls = shelf.calls;
      most = shelf.most;
    } };

    ghost invariant = { λ shelf. 0 < shelf.most };
}

impl MemShelf {
    /// A shelf that holds nothing and had no faults. No call is set to fail, and each moves as many bytes
    /// as fit.
    pub fn new(alloc: Global) -> Result<MemShelf, OutOfMemory>
        ensures { IfOk result (λ shelf. shelf ≡ record {
          files = empty;
          rest = None;
          making = None;
          faults = 0;
          read_faults = 0;
          calls = record { count = 0; failing = [] };
          most = usize.MAX;
        }) }
    {
        Ok(MemShelf {
            alloc,
            files: BTreeMap::new(alloc),
            rest: None,
            making: None,
            faults: 0,
            read_faults: 0,
            calls: Calls::new(alloc),
            most: usize::MAX,
        })
    }

    /// Puts a file on the shelf, in place of one of the same name.
    pub fn put(&mut self, name: &str, bytes: &[u8]) -> Result<(), OutOfMemory>
        ensures ok { OnOk result
            (self.new ≡ record self.old { files = insert self.old.files name.now bytes.now }) }
        ensures err { OnErr result (self.new ≡ self.old) }
    {
        hold(self.alloc, &mut self.files, name, bytes)?;
        Ok(())
    }

    /// Sets a call of `write`, `open`, `read`, `create` or `finish` to fail, by its number, counted from 1
    /// over all five.
    pub fn fail(&mut self, call: u64) -> Result<(), OutOfMemory>
        ensures ok { OnOk result (self.new ≡ record self.old {
          calls = record self.old.calls { failing = self.old.calls.failing ++ call ∷ [] };
        }) }
        ensures err { OnErr result (self.new ≡ self.old) }
    {
        self.calls.fail(call)?;
        Ok(())
    }

    /// From now on each read and each write moves at most so many bytes.
    pub fn pieces(&mut self, most: usize)
        requires { 0 < most }
        ensures { self.new ≡ record self.old { most = most } }
    {
        self.most = most;
    }

    /// How many calls of the five were made.
    pub fn calls(&self) -> u64
        ensures { result ≡ self.now.calls.count }
    {
        self.calls.count()
    }

    /// The bytes of a file, and none where the shelf doesn't hold the name.
    pub fn bytes(&self, name: &str) -> Option<&[u8]>
        ensures { option_map (λ bytes. bytes.now) result ≡ get self.now.files name.now }
    {
        Some(self.files.get(name)?.as_slice())
    }
}

impl Sink for MemShelf {
    ghost view = { held_view };

    /// Takes as much of the piece as `pieces` allows. It fails where the call is set to fail, or for want
    /// of memory; where no file is being made it takes none.
    fn write(&mut self, piece: &[u8]) -> Result<usize, Failed>
        ensures count { IfOk result (λ count. count ≡ min (length piece.now) self.old.most) }
        ensures at_least { IfOk result (λ count. 0 < length piece.now → 0 < count) }
        ensures ok { OnOk result (self.new ≡ record self.old {
          making = grown self.old.making (take self.old.most piece.now);
          calls = counted self.old.calls;
        }) }
        ensures err { OnErr result (self.new ≡ record self.old {
          faults = next_count self.old.faults;
          calls = counted self.old.calls;
        }) }
        ensures set_to_fail { NextFails self.old.calls → IsErr result }
        ensures before_create { self.old.making ≡ None → IsErr result → NextFails self.old.calls }
        ensures never_falls { self.old.faults ≤ self.new.faults }
    {
        if self.calls.next_fails() {
            return Err(fault(&mut self.faults));
        }
        let piece = &piece[..piece.len().min(self.most)];
        let Some(mut making) = self.making.take() else {
            return Ok(piece.len());
        };
        let appended = making.append(piece);
        self.making = Some(making);
        match appended {
            Ok(()) => Ok(piece.len()),
            Err(_) => Err(fault(&mut self.faults)),
        }
    }
}

impl Shelf for MemShelf {
    ghost rest_told = { λ _. refl };

    ghost tells_alike = { λ _ _. refl };

    /// It fails where the call is set to fail, where the name isn't held, or for want of memory.
    fn open(&mut self, name: &str) -> Result<(), Failed>
        ensures ok { OnOk result (self.new ≡ record self.old {
          rest = get self.old.files name.now;
          calls = counted self.old.calls;
        }) }
        ensures err { OnErr result (self.new ≡ record self.old {
          rest = None;
          read_faults = self.new.read_faults;
          calls = counted self.old.calls;
        }) }
        ensures missing { get self.old.files name.now ≡ None → IsErr result }
        ensures set_to_fail { NextFails self.old.calls
            → IsErr result × (self.new.read_faults ≡ next_count self.old.read_faults) }
        ensures held { IsSome (get self.old.files name.now)
            → OnErr result (self.new.read_faults ≡ next_count self.old.read_faults) }
        ensures not_counted { ¬ NextFails self.old.calls → get self.old.files name.now ≡ None
            → self.new.read_faults ≡ self.old.read_faults }
        ensures err_cause { OnErr result
            (ReadCause (held_view self.old) (held_view self.new) name.now) }
        ensures never_falls { self.old.read_faults ≤ self.new.read_faults }
    {
        self.rest = None;
        if self.calls.next_fails() {
            return Err(fault(&mut self.read_faults));
        }
        let Some(bytes) = self.files.get(name) else {
            return Err(Failed);
        };
        match Vec::from_slice(self.alloc, bytes.as_slice()) {
            Ok(bytes) => {
                self.rest = Some(Rest::of(bytes));
                Ok(())
            }
            Err(_) => Err(fault(&mut self.read_faults)),
        }
    }

    /// Moves as many bytes as fit and as `pieces` allows. It fails where the call is set to fail.
    fn read(&mut self, buf: &mut [u8]) -> Result<usize, Failed>
        requires open { is_some self.old.rest ≡ true }
        requires room { 0 < length buf.old }
        ensures count { IfOk result (λ count. count
            ≡ min (length (unwrap_or self.old.rest [])) (min (length buf.old) self.old.most)) }
        ensures moved { IfOk result (λ count.
            take count buf.new ≡ take count (unwrap_or self.old.rest [])) }
        ensures ok { IfOk result (λ count. self.new ≡ record self.old {
          rest = Some (drop count (unwrap_or self.old.rest []));
          calls = counted self.old.calls;
        }) }
        ensures ended { IfOk result (λ count. (count ≡ 0) ↔ (unwrap_or self.old.rest [] ≡ [])) }
        ensures err { OnErr result (self.new ≡ record self.old {
          read_faults = next_count self.old.read_faults;
          calls = counted self.old.calls;
        }) }
        ensures set_to_fail { IsErr result ↔ NextFails self.old.calls }
        ensures never_falls { self.old.read_faults ≤ self.new.read_faults }
    {
        if self.calls.next_fails() {
            return Err(fault(&mut self.read_faults));
        }
        let most = buf.len().min(self.most);
        match &mut self.rest {
            Some(rest) => Ok(rest.take_into(&mut buf[..most])),
            None => unreachable!(),
        }
    }

    /// It fails where the call is set to fail, or for want of memory.
    fn create(&mut self, name: &str) -> Result<(), Failed>
        ensures ok { OnOk result (self.new ≡ record self.old {
          making = Some (name.now, []);
          calls = counted self.old.calls;
        }) }
        ensures err { OnErr result (self.new ≡ record self.old {
          making = None;
          faults = next_count self.old.faults;
          calls = counted self.old.calls;
        }) }
        ensures set_to_fail { NextFails self.old.calls → IsErr result }
        ensures never_falls { self.old.faults ≤ self.new.faults }
    {
        self.making = None;
        if self.calls.next_fails() {
            return Err(fault(&mut self.faults));
        }
        match String::from_str(self.alloc, name) {
            Ok(name) => {
                self.making = Some(Making {
                    name,
                    bytes: Vec::new(self.alloc),
                });
                Ok(())
            }
            Err(_) => Err(fault(&mut self.faults)),
        }
    }

    /// It fails where the call is set to fail, or for want of memory, and then leaves all files.
    fn finish(&mut self) -> Result<(), Failed>
        ensures ok { OnOk result (self.new ≡ record self.old {
          files = with_made self.old.files self.old.making;
          making = None;
          calls = counted self.old.calls;
        }) }
        ensures err { OnErr result (self.new ≡ record self.old {
          making = None;
          faults = next_count self.old.faults;
          calls = counted self.old.calls;
        }) }
        ensures set_to_fail { NextFails self.old.calls → IsErr result }
        ensures never_falls { self.old.faults ≤ self.new.faults }
    {
        let making = self.making.take();
        if self.calls.next_fails() {
            return Err(fault(&mut self.faults));
        }
        let Some(making) = making else {
            return Ok(());
        };
        match making.put_into(&mut self.files) {
            Ok(()) => Ok(()),
            Err(_) => Err(fault(&mut self.faults)),
        }
    }
}

/// Holds a file, in place of one of the same name.
fn hold(
    alloc: Global,
    files: &mut BTreeMap<String, Vec<u8>>,
    name: &str,
    bytes: &[u8],
) -> Result<(), AllocError>
    ensures ok { OnOk result (files_of files.new ≡ insert (files_of files.old) name.now bytes.now) }
    ensures err { OnErr result (files_of files.new ≡ files_of files.old) }
{
    let name = String::from_str(alloc, name)?;
    let bytes = Vec::from_slice(alloc, bytes)?;
    Making { name, bytes }.put_into(files)
}
