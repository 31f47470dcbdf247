//! What is proved of the format for the crates above.

ghost use Rattle.burstfile.specs.Theorem.{Bytes, AcceptsEncodings};

/// Says what a slice of bytes is: each is below 256.
pub fn are_bytes(bytes: &[u8])
    ensures { Bytes bytes.now }
{
    for b in bytes {
        let _byte = *b;
    }
}

/// Reading accepts exactly the encodings of contents within their rules, over every list of bytes.
pub fn accepts_encodings()
    ensures { AcceptsEncodings }
{}
