//! The last of the frames that were sent.
ghost use Rattle.std.specs.Prelude.{◌≡◌, ◌<◌, ◌≤◌, ◌^◌, ℕ, List, length};
ghost use Rattle.den_model.specs.declared.reply.Reply.TheVariants.{Scan};
ghost use Rattle.den_model.specs.declared.reply.ScanResult.{ScanResult};
ghost use Rattle.den_model.specs.Reading.{size_at};
ghost use Rattle.den_model.specs.Spelling.{reply_word};
ghost use Rattle.den_drive.specs.Report.{EndsWith};

// The number in the first eight bytes.
#[tactic(auto, unfolding(den_model::specs::Reading::size_at))]
fn number_at(bytes: &[u8]) -> u64
    requires { 8 ≤ length bytes.now }
    ensures { result ≡ size_at bytes.now }
{
    u64::from_be_bytes([
        bytes[0], bytes[1], bytes[2], bytes[3], bytes[4], bytes[5], bytes[6], bytes[7],
    ])
}

/// The body of the last frame.
pub fn last_body(bytes: &[u8]) -> &[u8]
    ensures { (body : List ℕ) → EndsWith bytes.now body → result.now ≡ body }
{
    let mut rest = bytes;
    while rest.len() >= 8 {
        let size = number_at(rest);
        let (_, behind) = rest.split_at(8);
        if behind.len() as u64 <= size {
            return behind;
        }
        let (_, next) = behind.split_at(size as usize);
        rest = next;
    }
    rest
}

/// The revision of a scan's reply, and how many pairs it has.
pub fn scanned(body: &[u8]) -> (u64, u64)
    ensures { (r : ScanResult) → body.now ≡ reply_word (Scan r) → r.revision < 2 ^ 64 → result ≡ (r.revision, length r.entries) }
{
    if body.len() < 17 {
        return (0, 0);
    }
    let (_, fields) = body.split_at(1);
    let (_, behind) = fields.split_at(8);
    (number_at(fields), number_at(behind))
}
