//! What stands in front of a message in a text.

ghost use Rattle.std.specs.Prelude.{◌≡◌, ◌++◌, ◌≤◌, length, take, drop};
ghost use Rattle.journal_text.specs.Kept.{following, taken, unkept};

/// What stands in front of a message.
#[derive(Clone, Copy)]
pub(crate) enum Front {
    /// So many characters of the content, up to 65,535.
    Characters(u16),
    /// The end of the line before it, and `out K ` of this peer: nothing of it is kept.
    Out(u8),
}

/// The end of a line and `out K `, of each K from 0 to 255 in nine octets, filled up with spaces.
const FRONTS: &[u8] = b"\
\nout 0   \nout 1   \nout 2   \nout 3   \nout 4   \nout 5   \nout 6   \nout 7   \nout 8   \
\nout 9   \nout 10  \nout 11  \nout 12  \nout 13  \nout 14  \nout 15  \nout 16  \nout 17  \
\nout 18  \nout 19  \nout 20  \nout 21  \nout 22  \nout 23  \nout 24  \nout 25  \nout 26  \
\nout 27  \nout 28  \nout 29  \nout 30  \nout 31  \nout 32  \nout 33  \nout 34  \nout 35  \
\nout 36  \nout 37  \nout 38  \nout 39  \nout 40  \nout 41  \nout 42  \nout 43  \nout 44  \
\nout 45  \nout 46  \nout 47  \nout 48  \nout 49  \nout 50  \nout 51  \nout 52  \nout 53  \
\nout 54  \nout 55  \nout 56  \nout 57  \nout 58  \nout 59  \nout 60  \nout 61  \nout 62  \
\nout 63  \nout 64  \nout 65  \nout 66  \nout 67  \nout 68  \nout 69  \nout 70  \nout 71  \
\nout 72  \nout 73  \nout 74  \nout 75  \nout 76  \nout 77  \nout 78  \nout 79  \nout 80  \
\nout 81  \nout 82  \nout 83  \nout 84  \nout 85  \nout 86  \nout 87  \nout 88  \nout 89  \
\nout 90  \nout 91  \nout 92  \nout 93  \nout 94  \nout 95  \nout 96  \nout 97  \nout 98  \
\nout 99  \nout 100 \nout 101 \nout 102 \nout 103 \nout 104 \nout 105 \nout 106 \nout 107 \
\nout 108 \nout 109 \nout 110 \nout 111 \nout 112 \nout 113 \nout 114 \nout 115 \nout 116 \
\nout 117 \nout 118 \nout 119 \nout 120 \nout 121 \nout 122 \nout 123 \nout 124 \nout 125 \
\nout 126 \nout 127 \nout 128 \nout 129 \nout 130 \nout 131 \nout 132 \nout 133 \nout 134 \
\nout 135 \nout 136 \nout 137 \nout 138 \nout 139 \nout 140 \nout 141 \nout 142 \nout 143 \
\nout 144 \nout 145 \nout 146 \nout 147 \nout 148 \nout 149 \nout 150 \nout 151 \nout 152 \
\nout 153 \nout 154 \nout 155 \nout 156 \nout 157 \nout 158 \nout 159 \nout 160 \nout 161 \
\nout 162 \nout 163 \nout 164 \nout 165 \nout 166 \nout 167 \nout 168 \nout 169 \nout 170 \
\nout 171 \nout 172 \nout 173 \nout 174 \nout 175 \nout 176 \nout 177 \nout 178 \nout 179 \
\nout 180 \nout 181 \nout 182 \nout 183 \nout 184 \nout 185 \nout 186 \nout 187 \nout 188 \
\nout 189 \nout 190 \nout 191 \nout 192 \nout 193 \nout 194 \nout 195 \nout 196 \nout 197 \
\nout 198 \nout 199 \nout 200 \nout 201 \nout 202 \nout 203 \nout 204 \nout 205 \nout 206 \
\nout 207 \nout 208 \nout 209 \nout 210 \nout 211 \nout 212 \nout 213 \nout 214 \nout 215 \
\nout 216 \nout 217 \nout 218 \nout 219 \nout 220 \nout 221 \nout 222 \nout 223 \nout 224 \
\nout 225 \nout 226 \nout 227 \nout 228 \nout 229 \nout 230 \nout 231 \nout 232 \nout 233 \
\nout 234 \nout 235 \nout 236 \nout 237 \nout 238 \nout 239 \nout 240 \nout 241 \nout 242 \
\nout 243 \nout 244 \nout 245 \nout 246 \nout 247 \nout 248 \nout 249 \nout 250 \nout 251 \
\nout 252 \nout 253 \nout 254 \nout 255 \
";

/// The end of a line, and `out K ` of a peer.
fn out_front(peer: u8) -> &'static [u8]
    ensures { result.now ≡ following peer }
{
    let width = match peer {
        0..=9 => 7,
        10..=99 => 8,
        _ => 9,
    };
    let start = 9 * peer as usize;
    &FRONTS[start..start + width]
}

/// The text of a front, and what stands behind it in the content.
pub(crate) fn split_front<'a>(front: Front, content: &'a [u8]) -> (&'a [u8], &'a [u8])
    requires { taken front ≤ length content.now }
    ensures text { result.0.now ≡ take (taken front) content.now ++ unkept front }
    ensures behind { result.1.now ≡ drop (taken front) content.now }
{
    match front {
        Front::Characters(count) => content.split_at(count as usize),
        Front::Out(peer) => (out_front(peer), content),
    }
}
