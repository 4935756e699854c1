//! The methods that a path has, for an `Allow` field.

ghost use Rattle.std.specs.Prelude.{◌≡◌};
ghost use Rattle.bsp_routes.specs.Calls.{lists, allow_text};

/// The methods of the calls at one path.
#[derive(Clone, Copy, PartialEq, Eq)]
pub enum Methods {
    /// GET alone.
    Get,
    /// POST alone.
    Post,
    /// GET and POST.
    GetAndPost,
}

impl Methods {
    /// The value of the field `Allow` (RFC 9110, 10.2.1): `GET`, `POST` or `GET, POST`.
    pub fn allow(self) -> &'static str
        ensures { result.now ≡ allow_text self }
    {
        match self {
            Methods::Get => "GET",
            Methods::Post => "POST",
            Methods::GetAndPost => "GET, POST",
        }
    }

    /// Whether the method is one of these.
    pub fn contains(self, method: &[u8]) -> bool
        ensures { result ≡ lists self method.now }
    {
        match self {
            Methods::Get => method == b"GET".as_slice(),
            Methods::Post => method == b"POST".as_slice(),
            Methods::GetAndPost => method == b"GET".as_slice() || method == b"POST".as_slice(),
        }
    }
}
