// Written by tests/vectors/make_tokens.py: a token, and what `read_value`, `read_stamp` and
// `read_span` answer to it, in units of 10^-6 and in nanoseconds. A `>` stands before the token.
pub(crate) const TOKENS: &str = "\
>0|0|0|SpanRange\n\
>-0|0|0|BadSpan\n\
>0.0|0|0|SpanRange\n\
>-0.0|0|0|BadSpan\n\
>0e5|0|0|SpanRange\n\
>-0e-5|0|0|BadSpan\n\
>00|NotANumber|BadTime|BadSpan\n\
>01|NotANumber|BadTime|BadSpan\n\
>-01|NotANumber|BadTime|BadSpan\n\
>1|1000000|1000000000|1000000000\n\
>-1|-1000000|BeforeEpoch|BadSpan\n\
>+1|NotANumber|BadTime|BadSpan\n\
>.5|NotANumber|BadTime|BadSpan\n\
>1.|NotANumber|BadTime|BadSpan\n\
>-|NotANumber|BadTime|BadSpan\n\
>--1|NotANumber|BadTime|BadSpan\n\
>e5|NotANumber|BadTime|BadSpan\n\
>1e|NotANumber|BadTime|BadSpan\n\
>1e+|NotANumber|BadTime|BadSpan\n\
>1e-|NotANumber|BadTime|BadSpan\n\
>1E5|100000000000|100000000000000|100000000000000\n\
>1e+5|100000000000|100000000000000|100000000000000\n\
>1e-5|10|10000|SpanRange\n\
>1e05|100000000000|100000000000000|100000000000000\n\
>1e-05|10|10000|SpanRange\n\
>1.5e3|1500000000|1500000000000|1500000000000\n\
>1.5E+3|1500000000|1500000000000|1500000000000\n\
>15e-1|1500000|1500000000|1500000000\n\
>0.30000000000000004|300000|300000000|BadSpan\n\
>5e-7|1|500|SpanRange\n\
>-5e-7|-1|BeforeEpoch|BadSpan\n\
>1e-7|0|100|SpanRange\n\
>4.9999999e-7|0|500|BadSpan\n\
>1000000000000|1000000000000000000|TooLate|SpanRange\n\
>1000000000001|TooLarge|TooLate|SpanRange\n\
>1000000000000.0000004|1000000000000000000|TooLate|SpanRange\n\
>1000000000000.0000005|TooLarge|TooLate|SpanRange\n\
>-1000000000000.0000005|TooLarge|BeforeEpoch|BadSpan\n\
>999999999999.9999995|1000000000000000000|TooLate|SpanRange\n\
>1e12|1000000000000000000|TooLate|SpanRange\n\
>1e13|TooLarge|TooLate|SpanRange\n\
>1e999999999999999999999999|TooLarge|TooLate|SpanRange\n\
>0e999999999999999999999999|0|0|SpanRange\n\
>1e-999999999999999999999999|0|0|BadSpan\n\
>-1e-999999999999999999999999|0|BeforeEpoch|BadSpan\n\
>NaN|NotANumber|BadTime|BadSpan\n\
>Infinity|NotANumber|BadTime|BadSpan\n\
>1_000|NotANumber|BadTime|BadSpan\n\
>0x10|NotANumber|BadTime|BadSpan\n\
>1,5|NotANumber|BadTime|BadSpan\n\
> 1|NotANumber|BadTime|BadSpan\n\
>1 |NotANumber|BadTime|BadSpan\n\
>1.2.3|NotANumber|BadTime|BadSpan\n\
>1e5.5|NotANumber|BadTime|BadSpan\n\
>12a|NotANumber|BadTime|BadSpan\n\
>1.0000005|1000001|1000000500|1000000500\n\
>2.0000005|2000001|2000000500|2000000500\n\
>-1.0000005|-1000001|BeforeEpoch|BadSpan\n\
>1.0000015|1000002|1000001500|1000001500\n\
>0.0000015|2|1500|SpanRange\n\
>0.0000025|3|2500|SpanRange\n\
>0000000000000000000000000000000000000000000000000000000000000001|NotANumber|BadTime|BadSpan\n\
>1000000000000000000000000000000000000000000000000000000000000000|TooLarge|TooLate|SpanRange\n\
>10000000000000000000000000000000000000000000000000000000000000000|TooLong|BadTime|BadSpan\n\
>0.00000000000000000000000000000000000000000000000000000000000001|0|0|BadSpan\n\
>0.000000000000000000000000000000000000000000000000000000000000001|TooLong|BadTime|BadSpan\n\
>10000000000000000000000000000000000000000000000000000000000e-52|1000000000000|1000000000000000|1000000000000000\n\
>1234567890123456789012345678901234567890e-30|1234567890123457|1234567890123456789|BadSpan\n\
>0.0000000005|0|1|BadSpan\n\
>0.0000000004|0|0|BadSpan\n\
>0.00000000049999|0|0|BadSpan\n\
>1.0000000015|1000000|1000000002|BadSpan\n\
>8999999999.9999999994|9000000000000000|8999999999999999999|BadSpan\n\
>8999999999.9999999995|9000000000000000|TooLate|BadSpan\n\
>9000000000|9000000000000000|TooLate|9000000000000000000\n\
>8999999999|8999999999000000|8999999999000000000|8999999999000000000\n\
>1e10|10000000000000000|TooLate|SpanRange\n\
>2024-02-29|NotANumber|1709164800000000000|BadSpan\n\
>2023-02-29|NotANumber|BadTime|BadSpan\n\
>2000-02-29|NotANumber|951782400000000000|BadSpan\n\
>1900-02-29|NotANumber|BadTime|BadSpan\n\
>1970-01-01|NotANumber|0|BadSpan\n\
>1969-12-31|NotANumber|BeforeEpoch|BadSpan\n\
>0000-01-01|NotANumber|BeforeEpoch|BadSpan\n\
>0000-02-30|NotANumber|BadTime|BadSpan\n\
>9999-12-31|NotANumber|TooLate|BadSpan\n\
>2255-03-14|NotANumber|8999942400000000000|BadSpan\n\
>2255-03-14T16:00|NotANumber|TooLate|BadSpan\n\
>2255-03-14T15:59:59.999999999|NotANumber|8999999999999999999|BadSpan\n\
>2024-02-29T12:00:00.5+01:30|NotANumber|1709202600500000000|BadSpan\n\
>2024-02-29T12:00:00.5-01:30|NotANumber|1709213400500000000|BadSpan\n\
>2024-02-29 12:00|NotANumber|1709208000000000000|BadSpan\n\
>2024-02-29T12:00Z|NotANumber|1709208000000000000|BadSpan\n\
>2024-02-29t12:00Z|NotANumber|BadTime|BadSpan\n\
>2024-02-29T12:00z|NotANumber|1709208000000000000|BadSpan\n\
>2024-02-29T12:00:60|NotANumber|BadTime|BadSpan\n\
>2024-02-29T24:00|NotANumber|BadTime|BadSpan\n\
>2024-02-29T23:60|NotANumber|BadTime|BadSpan\n\
>2024-02-29T12:00:00.|NotANumber|BadTime|BadSpan\n\
>2024-02-29T12:00:00.1234567890|NotANumber|BadTime|BadSpan\n\
>2024-02-29T12:00:00.123456789|NotANumber|1709208000123456789|BadSpan\n\
>2024-02-29Z|NotANumber|BadTime|BadSpan\n\
>2024-02-29T|NotANumber|BadTime|BadSpan\n\
>2024-02-29T12|NotANumber|BadTime|BadSpan\n\
>2024-02-29T12:00+24:00|NotANumber|BadTime|BadSpan\n\
>2024-02-29T12:00+23:60|NotANumber|BadTime|BadSpan\n\
>2024-02-29T12:00+23:59|NotANumber|1709121660000000000|BadSpan\n\
>2024-02-29T12:00-23:59|NotANumber|1709294340000000000|BadSpan\n\
>2024-02-29T12:00+0130|NotANumber|BadTime|BadSpan\n\
>1970-01-01T00:00+00:01|NotANumber|BeforeEpoch|BadSpan\n\
>1969-12-31T23:59-00:01|NotANumber|0|BadSpan\n\
>1969-12-31T23:59:59.9-00:00|NotANumber|BeforeEpoch|BadSpan\n\
>2024-2-29|NotANumber|BadTime|BadSpan\n\
>2024-13-01|NotANumber|BadTime|BadSpan\n\
>2024-00-10|NotANumber|BadTime|BadSpan\n\
>2024-01-00|NotANumber|BadTime|BadSpan\n\
>2024-04-31|NotANumber|BadTime|BadSpan\n\
>2024-04-30|NotANumber|1714435200000000000|BadSpan\n\
>02024-01-01|NotANumber|BadTime|BadSpan\n\
>2024-01-01T12:00.5|NotANumber|BadTime|BadSpan\n\
>2024-01-01  12:00|NotANumber|BadTime|BadSpan\n\
>2024-01-01T12:00:00ZZ|NotANumber|BadTime|BadSpan\n\
>2016-12-31T23:59:60Z|NotANumber|BadTime|BadSpan\n\
>60s|NotANumber|BadTime|60000000000\n\
>60 s|NotANumber|BadTime|60000000000\n\
>1.5 min|NotANumber|BadTime|90000000000\n\
>1.5min|NotANumber|BadTime|90000000000\n\
>1 day|NotANumber|BadTime|86400000000000\n\
>1 days|NotANumber|BadTime|86400000000000\n\
>1 day, 0:00:00|NotANumber|BadTime|86400000000000\n\
>2 days, 0:00:00|NotANumber|BadTime|172800000000000\n\
>1 days, 0:00:00|NotANumber|BadTime|86400000000000\n\
>1 day,0:00:00|NotANumber|BadTime|BadSpan\n\
>0:01:00|NotANumber|BadTime|60000000000\n\
>00:01:00|NotANumber|BadTime|60000000000\n\
>000:01:00|NotANumber|BadTime|BadSpan\n\
>0:1:00|NotANumber|BadTime|BadSpan\n\
>24:00:00|NotANumber|BadTime|BadSpan\n\
>23:59:60|NotANumber|BadTime|BadSpan\n\
>23:60:00|NotANumber|BadTime|BadSpan\n\
>0:00:00|NotANumber|BadTime|SpanRange\n\
>0:00:00.001|NotANumber|BadTime|1000000\n\
>0:00:00.0009|NotANumber|BadTime|SpanRange\n\
>0:00:00.0000000001|NotANumber|BadTime|BadSpan\n\
>0:00:00.999999999|NotANumber|BadTime|999999999\n\
>7 days, 23:59:59.5|NotANumber|BadTime|691199500000000\n\
>007 days, 1:00:00|NotANumber|BadTime|608400000000000\n\
>104166 days, 16:00:00|NotANumber|BadTime|9000000000000000000\n\
>104166 days, 16:00:00.000000001|NotANumber|BadTime|SpanRange\n\
>99999999999999999999999999 days, 0:00:00|NotANumber|BadTime|SpanRange\n\
>0.0000000001|0|0|BadSpan\n\
>0.0005|500|500000|SpanRange\n\
>0.001|1000|1000000|1000000\n\
>0.0010000001|1000|1000000|BadSpan\n\
>0.0009999999|1000|1000000|BadSpan\n\
>9000000000.000000001|9000000000000000|TooLate|SpanRange\n\
>1.5 fortnight|NotANumber|BadTime|BadSpan\n\
>1.5|1500000|1500000000|1500000000\n\
>1.5.5 s|NotANumber|BadTime|BadSpan\n\
>1. s|NotANumber|BadTime|BadSpan\n\
>.5 s|NotANumber|BadTime|BadSpan\n\
>5|5000000|5000000000|5000000000\n\
>5 |NotANumber|BadTime|BadSpan\n\
>5 S|NotANumber|BadTime|BadSpan\n\
>1 msec|NotANumber|BadTime|BadSpan\n\
>1 ms|NotANumber|BadTime|1000000\n\
>0.5 ms|NotANumber|BadTime|SpanRange\n\
>0.999999 ms|NotANumber|BadTime|SpanRange\n\
>0.9999999 ms|NotANumber|BadTime|BadSpan\n\
>0.00000000005 min|NotANumber|BadTime|SpanRange\n\
>0.00000000001 min|NotANumber|BadTime|BadSpan\n\
>1.00000000005 min|NotANumber|BadTime|60000000003\n\
>0.0000000000125 week|NotANumber|BadTime|SpanRange\n\
>1.000000000000125 day|NotANumber|BadTime|BadSpan\n\
>1.00000000000003125 weeks|NotANumber|BadTime|BadSpan\n\
>14880.952380952380952 w|NotANumber|BadTime|BadSpan\n\
>14880 weeks|NotANumber|BadTime|8999424000000000000\n\
>14881 weeks|NotANumber|BadTime|SpanRange\n\
>15000 w|NotANumber|BadTime|SpanRange\n\
>2500000 h|NotANumber|BadTime|9000000000000000000\n\
>2500001 hours|NotANumber|BadTime|SpanRange\n\
>150000000 minutes|NotANumber|BadTime|9000000000000000000\n\
>9000000000000 ms|NotANumber|BadTime|9000000000000000000\n\
>9000000000001 milliseconds|NotANumber|BadTime|SpanRange\n\
>00000000000000000000000000000000000000000000000000000000000000001 s|TooLong|BadTime|BadSpan\n\
>0000000000000000000000000000000000000000000000000000000000000001 s|TooLong|BadTime|1000000000\n\
>1.00000000000000000000000000000000000000000000000000000000000000 s|TooLong|BadTime|1000000000\n\
>1.000000000000000000000000000000000000000000000000000000000000000 s|TooLong|BadTime|BadSpan\n\
>99999999999999999999999999999999999999 w|NotANumber|BadTime|SpanRange\n\
>99999999999999999999999999999999999999.5 ms|NotANumber|BadTime|SpanRange\n\
>99999999999999999999999999999999999999.0000001 ms|NotANumber|BadTime|BadSpan\n\
>1                                                                            s|TooLong|BadTime|1000000000\n\
";
