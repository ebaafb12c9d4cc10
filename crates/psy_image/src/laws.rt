//! Laws: of the definitions, each the contract of a function that does nothing, and of both calls together.
ghost use Rattle.std.specs.Prelude.{◌≡◌, ◌≤◌, ◌⊎◌, ◌↔◌, IfOk, List, ℕ, Ok, Err, length, true};
ghost use Rattle.psy_code.specs.declared.code.Code.{Code as code_type};
ghost use Rattle.psy_image.specs.declared.image.Image.{Image as image_type};
ghost use Rattle.psy_image.specs.Answers.{IsBadAt, KeepRanges, emptied, image_of};
ghost use Rattle.psy_image.specs.Fields.{AreBytes};
ghost use Rattle.psy_image.specs.Formats.{Format, IsBad, Spells};
ghost use Rattle.psy_image.specs.Images.{spells_image};
ghost use Rattle.psy_image.specs.Names.{is_name};
ghost use Rattle.psy_image.specs.Reading.{read};
ghost use Rattle.psy_tree.specs.declared.token.Kind.TheVariants as kinds;
ghost use Rattle.psy_tree.specs.declared.unit.Unit.{Unit as Whole};
ghost use Rattle.psy_tree.specs.Lexemes.{IsSpelling};

use crate::decoding::decode;
use crate::encoding::encode;
use crate::fault::ImageFault;
use crate::image::Image;
use psy_code::Code;
use psy_tree::Unit;
use std::alloc::Global;

/// By any format, bytes are read as what they spell, and where they spell nothing, up to the first field that is bad.
pub fn formats<A>()
    ensures read { (F : Format A) (bytes : List ℕ) (a : A) (rest : List ℕ) → AreBytes bytes → (read F bytes ≡ Ok (a, rest) ↔ Spells F bytes a rest) }
    ensures bad { (F : Format A) (bytes : List ℕ) (left : ℕ) → AreBytes bytes → (read F bytes ≡ Err left ↔ IsBad F bytes left) }
{}

/// Bytes spell one image, or they are bad at one place, which is at most their number.
pub fn one_image()
    ensures either { (bytes : List ℕ) → AreBytes bytes → ((it : image_type) × spells_image it bytes) ⊎ ((place : ℕ) × IsBadAt bytes place) }
    ensures image { (bytes : List ℕ) (it other : image_type) → spells_image it bytes → spells_image other bytes → it ≡ other }
    ensures place { (bytes : List ℕ) (place elsewhere : ℕ) → IsBadAt bytes place → IsBadAt bytes elsewhere → place ≡ elsewhere }
    ensures not_both { (bytes : List ℕ) (it : image_type) (place : ℕ) → spells_image it bytes → IsBadAt bytes place → ⊥ }
    // Its unit has no statements, no slots and no functions.
    ensures emptied { (bytes : List ℕ) (it : image_type) → spells_image it bytes → it.unit ≡ emptied it.unit }
    ensures within { (bytes : List ℕ) (place : ℕ) → IsBadAt bytes place → place ≤ length bytes }
{}

/// What bytes spell keeps the ranges of an image, and is the image of its unit and code: so it can be written, by the same
/// bytes.
pub fn kept()
    ensures ranges { (bytes : List ℕ) (it : image_type) → spells_image it bytes → KeepRanges it.unit it.code }
    ensures again { (bytes : List ℕ) (it : image_type) → spells_image it bytes → image_of it.unit it.code ≡ it }
{}

/// A unit and a code are spelled by one list of bytes at most.
pub fn one_text()
    ensures { (unit : Whole) (code : code_type) (bytes other : List ℕ) → spells_image (image_of unit code) bytes
        → spells_image (image_of unit code) other → bytes ≡ other }
{}

/// A text is a name exactly where it spells a token that is a name.
pub fn names()
    ensures { (text : List ℕ) → (is_name text ≡ true ↔ IsSpelling (kinds.Name text) text) }
{}

/// What is written is read as the unit, without its statements, slots and functions, and the code. `Large` where the image
/// would pass 262,144 bytes, and want of memory, are the only errors.
pub fn read_again(alloc: Global, unit: &Unit, code: &Code) -> Result<Image, ImageFault>
    requires { KeepRanges unit.now code.now }
    ensures { IfOk result (λ it. it ≡ image_of unit.now code.now) }
{
    let bytes = encode(alloc, unit, code)?;
    decode(alloc, bytes.as_slice())
}
