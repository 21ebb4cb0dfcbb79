//! Laws of uploads, each the contract of a function that does nothing.
ghost use Rattle.std.specs.Prelude.{◌≡◌, ℕ, List, Result};
ghost use Rattle.board_layout.specs.Board.{Board};
ghost use Rattle.door_upload.specs.Upload.{Upload, UploadGives, UploadRefusal};

/// The bytes that a user uploads come to one thing at most.
pub fn one_upload()
    ensures { (name bytes : List ℕ) (now : ℕ) (b : Board) (r s : Result Upload UploadRefusal) → UploadGives name bytes now b r → UploadGives name bytes now b s → r ≡ s }
{}
