//! Files in memory, by their names.
ghost use Rattle.std.specs.Prelude.{◌≡◌, ◌≢◌, ◌<◌, ◌≤◌, map, find, bytes_eq, length, vec_len, IfOk};
ghost use Rattle.std.specs.Option.{option_copied};
ghost use Rattle.psy_door.specs.Files.{named, taken_of};

use crate::shelf::FetchFault;
use psy_base::Text;
use std::alloc::Global;

/// The first file with this name.
fn first<'a>(files: &'a [(Text, Vec<u8>)], name: &[u8]) -> Option<&'a (Text, Vec<u8>)>
    ensures { option_copied result ≡ find (λ p. bytes_eq name.now p.0) files.now }
{
    files.iter().find(|p| name == p.0.bytes())
}

/// The bytes of the first file with this name.
#[tactic(auto, using(crate::proofs::lemmas::FilesLemmas::named_map))]
pub fn bytes_of<'a>(files: &'a [(Text, Vec<u8>)], name: &[u8]) -> Option<&'a [u8]>
    ensures { option_copied result ≡ named name.now (map (λ p. (p.0, p.1.items)) files.now) }
{
    match first(files, name) {
        None => None,
        Some(file) => Some(file.1.as_slice()),
    }
}

/// How many bytes a call takes from a file of so many, where it may have so many.
pub fn taken_of(most: usize, bytes: usize) -> usize
    ensures { result ≡ taken_of most bytes }
{
    if bytes > most { most + 1 } else { bytes }
}

/// A copy of a file that isn't too long.
pub fn copied(alloc: Global, bytes: &[u8], most: usize) -> Result<Vec<u8>, FetchFault>
    ensures ok { IfOk result (λ copy. copy.items ≡ bytes.now) }
    ensures within { IfOk result (λ copy. vec_len copy ≤ most) }
    ensures never { result ≢ Err FetchFault.Failed }
    ensures too_long { result ≡ Err FetchFault.TooLong → most < length bytes.now }
{
    if bytes.len() > most {
        return Err(FetchFault::TooLong);
    }
    Ok(Vec::from_slice(alloc, bytes)?)
}
