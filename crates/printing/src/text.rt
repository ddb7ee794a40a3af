// A text into a lent slice, from its first byte on.
ghost use Rattle.std.specs.Prelude.{◌≡◌};
ghost use Rattle.printing.specs.Text as Text;

#[tactic(auto, unfolding(crate::specs::Text::put))]
pub(crate) fn put(to: &mut [u8], text: &[u8]) -> usize
    ensures bytes { to.new ≡ Text.put text.now to.old }
    ensures count { result ≡ Text.bytes_put text.now to.old }
{
    let n = text.len().min(to.len());
    to[..n].copy_from_slice(&text[..n]);
    n
}
