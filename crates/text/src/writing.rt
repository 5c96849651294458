// A line that grows in a caller's buffer, from its start.

ghost use Rattle.std.specs.Prelude.{◌≡◌, ◌==◌, decimal};
ghost use Rattle.text.specs.Grown.{Grown, HasRoom};

#[derive(Drop)]
pub(crate) struct Line<'a> {
    buffer: &'a mut [u8],
    len: usize,
}

impl<'a> Line<'a> {
    pub(crate) fn new(buffer: &'a mut [u8]) -> Line<'a>
        ensures same_buffer { result.buffer.ghost_name ≡ buffer.entry.ghost_name }
        ensures kept { result.buffer.now ≡ buffer.old }
        ensures empty { result.len ≡ 0 }
    {
        Line { buffer, len: 0 }
    }

    pub(crate) fn len(&self) -> usize
        ensures { result ≡ self.now.len }
    {
        self.len
    }

    pub(crate) fn is_empty(&self) -> bool
        ensures { result ≡ self.now.len == 0 }
    {
        self.len == 0
    }

    #[tactic(auto, using(crate::proofs::Puts::put_mid_sets))]
    pub(crate) fn push_str(&mut self, text: &str)
        requires { HasRoom self.old text.now }
        ensures { Grown self.old text.now self.new }
    {
        let end = self.len + text.len();
        self.buffer[self.len..end].copy_from_slice(text.as_bytes());
        self.len = end;
    }

    pub(crate) fn push_number(&mut self, number: u32)
        requires { HasRoom self.old (decimal number) }
        ensures { Grown self.old (decimal number) self.new }
    {
        self.push_str(itoa::Buffer::new().format(number));
    }
}
