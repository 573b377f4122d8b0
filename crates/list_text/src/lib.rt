// The listing as text.
#![tactic(auto)]

ghost use Rattle.std.specs.Prelude.{◌+◌, ◌≡◌, ◌≤◌, length};
ghost use Rattle.list_text.specs.Promises.{Promises};
ghost use Rattle.list_text.specs.Text.{field_text, edge_text, total_text, refused_text, form_text, header, Put};

use list_decimal::put_number;

#[derive(Clone, Copy)]
pub struct Edge {
    pub plane: u64,
    pub pass: u64,
    pub x: u64,
    pub y: u64,
    pub class: u64,
    pub level: u64,
}

// Room for any listing; `len` bytes are written.
#[derive(Drop)]
pub struct Text {
    pub bytes: [u8; 393255],
    pub len: usize,
    ghost long: { length bytes ≡ 393255 },
}

impl Text {
    pub fn put_bytes(&mut self, s: &[u8])
        requires { self.old.len + length s.now ≤ 393255 }
        ensures { Put self.old.bytes self.old.len s.now self.new.bytes self.new.len }
    {
        let end = self.len + s.len();
        self.bytes[self.len..end].copy_from_slice(s);
        self.len = end;
    }

    fn put_field(&mut self, n: u64, b: u8)
        requires { self.old.len + length (field_text n b) ≤ 393255 }
        ensures { Put self.old.bytes self.old.len (field_text n b) self.new.bytes self.new.len }
    {
        let e = put_number(&mut self.bytes, self.len, n);
        self.bytes[e] = b;
        self.len = e + 1;
    }

    pub fn put_edge(&mut self, edge: Edge)
        requires { self.old.len + length (edge_text edge.plane edge.pass edge.x edge.y edge.class edge.level) ≤ 393255 }
        ensures { Put self.old.bytes self.old.len (edge_text edge.plane edge.pass edge.x edge.y edge.class edge.level) self.new.bytes self.new.len }
    {
        self.put_field(edge.plane, b'\t');
        self.put_field(edge.pass, b'\t');
        self.put_field(edge.x, b'\t');
        self.put_field(edge.y, b'\t');
        self.put_field(edge.class, b'\t');
        self.put_field(edge.level, b'\n');
    }

    pub fn put_header(&mut self)
        requires { self.old.len + 27 ≤ 393255 }
        ensures { Put self.old.bytes self.old.len header self.new.bytes self.new.len }
    {
        self.put_bytes(b"plane\tpass\tx\ty\tclass\tlevel\n");
    }

    pub fn put_total(&mut self, n: u64)
        requires { self.old.len + length (total_text n) ≤ 393255 }
        ensures { Put self.old.bytes self.old.len (total_text n) self.new.bytes self.new.len }
    {
        self.put_bytes(b"edges\t");
        self.put_field(n, b'\n');
    }

    pub fn put_refused(&mut self, line: u64, number: u64)
        requires { self.old.len + length (refused_text line number) ≤ 393255 }
        ensures { Put self.old.bytes self.old.len (refused_text line number) self.new.bytes self.new.len }
    {
        self.put_bytes(b"refused\t");
        self.put_field(line, b'\t');
        self.put_field(number, b'\n');
    }

    pub fn put_form(&mut self, line: u64)
        requires { self.old.len + length (form_text line) ≤ 393255 }
        ensures { Put self.old.bytes self.old.len (form_text line) self.new.bytes self.new.len }
    {
        self.put_bytes(b"refused\t");
        self.put_field(line, b'\t');
        self.put_bytes(b"form\n");
    }
}

// The theorems of specs/Promises.antt are proved.
pub fn promised()
    ensures { Promises }
{}
