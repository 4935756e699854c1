//! The codes of requests.

use crate::entry::Row;

/// The codes `N01` to `N03`.
pub(crate) const N01_TO_N03: [Row; 3] = [
    (
        "N01",
        "403",
        "The token is not that of the caller in the path. The field `Bsp-Token` is missing or comes twice, the code in the path is wrong, or the caller is not registered. One answer for all, so that nobody learns who is registered",
        "Compare the token, letter by letter, and the code in the path. If both are right, ask the office to register you. An agent reads its own path alone, as does an airline",
        &[],
    ),
    (
        "N02",
        "404",
        "No request has this path. It has a `?`, a `%`, a `/` at its end, an empty value, or a word in other letters",
        "Take the path from docs/API.md. No path has a query",
        &[],
    ),
    (
        "N03",
        "405",
        "The path is right, and its method is not. The field `Allow` of the answer has the methods",
        "Send GET where you ask for something, and POST where you change something",
        &[],
    ),
];

/// The code `N04`.
pub(crate) const N04: [Row; 1] = [(
    "N04",
    "400",
    "The body is not the JSON object of this request",
    "`bsp_office body 'POST /office/day' FILE`, with your own request in place of this one, names the key and the cause. Or compare the body with that of the request, key by key: see its causes",
    &[
        "`/office/day` takes `{\"day\":\"2024-01-05\"}`",
        "`/office/agents` takes `{\"agent\":\"12345675\",\"token\":\"agenttoken000001\"}`",
        "`/office/airlines` takes `{\"airline\":\"125\",\"token\":\"airlinetoken0001\"}`",
        "`/office/stock/allot` and `/office/stock/withdraw` take `{\"agent\":\"12345675\",\"first\":\"1300000000\",\"last\":\"1300000099\"}`",
        "`/office/close` takes `{\"period\":\"24011\"}`",
        "`/agents/12345675/memos/dispute` and `../agree` take `{\"airline\":\"125\",\"document\":\"6000000001\"}`",
        "`/airlines/125/memos` takes `{\"agent\":\"12345675\",\"amount\":5000,\"document\":\"6000000001\",\"kind\":\"ADMA\",\"reason\":\"fare\"}`",
        "`/airlines/125/memos/uphold` and `../withdraw` take `{\"document\":\"6000000001\"}`",
        "`/airlines/125/memos/reduce` takes `{\"amount\":3000,\"document\":\"6000000001\"}`",
        "A key is missing, has another name or other letters (`\"Day\"`), or is one too many: exactly these keys are right",
        "`\"amount\":\"5000\"`, `50.00` and `5e3` are wrong, `\"amount\":5000` is right: a whole number in minor units, without quotes",
        "`\"agent\":12345675`, `\"period\":24011` and `\"document\":6000000001` are wrong: digits are in quotes, as in `\"agent\":\"12345675\"`",
        "A document has ten digits, without the check digit",
        "An agent has eight digits, an airline three and a period five, zeros in front included",
        "`2024-1-5`, `05.01.2024`, `20240105`, `2024-02-30`, and a day before 2000 or after 2099 are wrong, `2024-01-05` is right: a day of the calendar",
        "A token has 16 to 64 letters `A` to `Z`, `a` to `z` and digits, and no other character, as `-` or `_`",
        "`\"kind\":\"adma\"` and `\"ADM\"` are wrong, `\"ADMA\"` (debit) and `\"ACMA\"` (credit) are right",
        "A reason has 1 to 40 characters from space to `~`: no accent, no tab and no line end",
        "No body, `day=2024-01-05`, single quotes, a comma at the end, a list, a text alone or no `}`: one JSON object is right",
        "Text behind the object, a byte order mark in front of it, or bytes that are no UTF-8: only the object is right",
        "`null`, `true` or a list as a value: a text in double quotes is right, or for `amount` a number",
    ],
)];

/// The codes `N05` and `N06`.
pub(crate) const N05_TO_N06: [Row; 2] = [
    (
        "N05",
        "409",
        "The last digit of the agent's code that is registered is not its check digit",
        "The check digit is the number of the first seven digits modulo 7: 1234567 gives 5, so 12345675",
        &[],
    ),
    (
        "N06",
        "409",
        "The airline that is registered is not in the plan",
        "Publish a plan text with the airline first, then register it",
        &[],
    ),
];

/// The codes `T`.
pub(crate) const HEADS: [Row; 5] = [
    (
        "T01",
        "400",
        "The head is no head of an HTTP/1.1 request. Or there is not exactly one `Host`, or its value is no host. Or `Content-Length` comes twice, is empty or is no number",
        "Send it with an HTTP client, such as `curl`. An address begins with `http://`",
        &[],
    ),
    (
        "T02",
        "411",
        "A POST has no `Content-Length`",
        "Send a body: `curl -d '{..}'` or `--data-binary @FILE`",
        &[],
    ),
    (
        "T03",
        "413",
        "The body has more than 4,194,304 bytes",
        "Split the report into several files, each with its own header and trailer",
        &[],
    ),
    (
        "T04",
        "431",
        "The head has more than 16,384 bytes, or more than 64 fields",
        "Send fewer fields: `Bsp-Token` is the one that the office asks for",
        &[],
    ),
    (
        "T05",
        "501",
        "The body is sent in pieces (`Transfer-Encoding: chunked`)",
        "Send it with its length. `curl -T -` sends in pieces, `--data-binary` does not. A proxy in front can collect the pieces (docs/OPERATION.md)",
        &[],
    ),
];
